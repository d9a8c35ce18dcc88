ghost use Rattle.std.specs.Prelude.{◌≡◌};
ghost use Rattle.lowest.specs.declared.lowest.Lowest.{Lowest};
ghost use Rattle.lowest.specs.declared.lowest.Lowest.TheVariants.{Empty};

use locks::live::Live;
use lowest::lowest::Lowest;

// A lowest lock in which each allowed act has a possible reaction.
pub type LiveLowest = Live<Lowest>;

// The empty lock, which allows nothing.
pub fn empty_live() -> LiveLowest
    ensures { result.lower ≡ Empty }
{
    Live::new(Lowest::Empty).unwrap()
}
