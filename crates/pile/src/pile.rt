ghost use Rattle.std.specs.Prelude.{◌≡◌, Some, None, MatchResult};
ghost use Rattle.lowest.specs.Lowest.{empty_meaning};
ghost use Rattle.pile.specs.Pile.{live_lock, pile_meaning};
ghost use Rattle.locks.specs.Allowed.{allowance, marked, layer_fault};
ghost use Rattle.locks.specs.Layer.{layered};

use crate::live::{LiveLowest, empty_live};
use locks::allowance::{Allowance, LayerFault};
use locks::marks::Marks;

// The locks of a file, as one: an allowance over the lowest lock.
pub type Pile = Allowance<LiveLowest>;

// The pile of a live lowest lock; refused as the layer is.
pub fn pile_over(lowest: LiveLowest, marks: Marks, most: u8) -> Result<Pile, LayerFault>
    ensures { MatchResult result (λ p. (layer_fault (live_lock lowest) most ≡ None) × (pile_meaning p ≡ layered (live_lock lowest) (allowance (marked marks) most))) (λ e. layer_fault (live_lock lowest) most ≡ Some e) }
{
    Allowance::new(lowest, marks, most).map_err(|refused| refused.fault)
}

// The pile over the empty lock, with nothing marked and nothing allowed: it says no to all as well.
pub fn empty_pile() -> Pile
    ensures { pile_meaning result ≡ empty_meaning }
{
    pile_over(empty_live(), Marks::none(), 0).unwrap()
}
