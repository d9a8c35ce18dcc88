ghost use Rattle.std.specs.Prelude.{◌≡◌, true, false, MatchOption};
ghost use Rattle.lowest.specs.Facts.{count_range};

use locks::facts::FactCount;
use locks::lock::MOST_ACTS;

// The count of the facts, if a lock may have so many facts and acts.
pub(crate) fn counted(facts: u8, acts: u8) -> Option<FactCount>
    ensures { MatchOption result (count_range facts acts ≡ false) (λ c. (c ≡ facts) × (count_range facts acts ≡ true)) }
{
    if facts == 0 || !(1..=MOST_ACTS).contains(&acts) {
        return None;
    }
    FactCount::new(facts)
}
