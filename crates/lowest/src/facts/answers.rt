ghost use Rattle.lowest.specs.FactViews.{fact_lock};
ghost use Rattle.lowest.specs.FactLaws.{fact_lock_lawful};

use super::FactLock;
use locks::facts::holds;
use locks::lock::{Lock, REACTIONS};

impl Lock for FactLock {
    ghost meaning = { fact_lock };

    ghost lawful = { fact_lock_lawful };

    fn states(&self) -> u32 {
        self.facts.valuations()
    }

    fn facts(&self) -> u8 {
        self.facts.get()
    }

    fn acts(&self) -> u8 {
        self.acts
    }

    fn first(&self) -> u32 {
        self.first
    }

    fn holds(&self, state: u32, fact: u8) -> bool {
        state < self.states() && fact < self.facts.get() && holds(state, fact)
    }

    fn allowed(&self, state: u32, act: u8) -> bool {
        state < self.states()
            && act < self.acts
            && self.rule(act).is_some_and(|rule| rule.is_met(state))
    }

    fn possible(&self, state: u32, act: u8, reaction: u8) -> bool {
        self.allowed(state, act)
            && reaction < REACTIONS
            && self
                .change(act, reaction)
                .is_some_and(|change| change.is_met(state))
    }

    fn after(&self, state: u32, act: u8, reaction: u8) -> u32 {
        match self.change(act, reaction) {
            Some(change) if self.possible(state, act, reaction) => change.applied(state),
            _ => 0,
        }
    }
}
