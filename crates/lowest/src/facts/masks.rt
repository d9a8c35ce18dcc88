ghost use Rattle.std.specs.Prelude.{◌≡◌};
ghost use Rattle.lowest.specs.Bits.{met, rewritten};
ghost use Rattle.lowest.specs.Facts.{rule_short, change_short};

use super::{Change, Rule};
use locks::facts::FactCount;

impl Rule {
    // Whether all need bits are set in the state, and no lack bit.
    pub(crate) fn is_met(self, state: u32) -> bool
        ensures { result ≡ met state self.need self.lack }
    {
        let need = u32::from(self.need);
        state & need == need && state & u32::from(self.lack) == 0
    }

    // Whether each bit is of one of the facts.
    pub(crate) fn is_of(self, facts: FactCount) -> bool
        ensures { result ≡ rule_short facts self }
    {
        facts.covers(self.need) && facts.covers(self.lack)
    }
}

impl Change {
    // When the change is possible.
    fn when(self) -> Rule
        ensures need { result.need ≡ self.need }
        ensures lack { result.lack ≡ self.lack }
    {
        Rule {
            need: self.need,
            lack: self.lack,
        }
    }

    // Whether all need bits are set in the state, and no lack bit.
    pub(crate) fn is_met(self, state: u32) -> bool
        ensures { result ≡ met state self.need self.lack }
    {
        self.when().is_met(state)
    }

    // The state after clear bits went and then set bits came.
    pub(crate) fn applied(self, state: u32) -> u32
        ensures { result ≡ rewritten state self.clear self.set }
    {
        (state - (state & u32::from(self.clear))) | u32::from(self.set)
    }

    // Whether each bit is of one of the facts.
    pub(crate) fn is_of(self, facts: FactCount) -> bool
        ensures { result ≡ change_short facts self }
    {
        self.when().is_of(facts) && facts.covers(self.set) && facts.covers(self.clear)
    }
}
