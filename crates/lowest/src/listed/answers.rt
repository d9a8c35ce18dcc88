ghost use Rattle.std.specs.Prelude.{◌≡◌, is_some};
ghost use Rattle.locks.specs.Meaning.{any_below, reactions};
ghost use Rattle.lowest.specs.Listed.{move_in, valuation_in};
ghost use Rattle.lowest.specs.ListedViews.{listed_lock, listed_moves, listed_valuations};
ghost use Rattle.lowest.specs.ListedLaws.{listed_lock_lawful};

use super::ListedLock;
use locks::facts::holds;
use locks::lock::{Lock, REACTIONS};

impl ListedLock {
    // The state's valuation; no fact holds in a state that is not listed yet.
    fn valuation(&self, state: u32) -> u16
        ensures { result ≡ valuation_in (listed_valuations self.now) state }
    {
        self.valuations.get(state as usize).copied().unwrap_or(0)
    }

    // Whether the act has a move in the state.
    fn has_move(&self, state: u32, act: u8) -> bool
        ensures { result ≡ any_below reactions (λ e. is_some (move_in self.now.acts (listed_moves self.now) state act e)) }
    {
        (0..REACTIONS).any(|reaction| self.move_to(state, act, reaction).is_some())
    }
}

impl Lock for ListedLock {
    ghost meaning = { listed_lock };

    ghost lawful = { listed_lock_lawful };

    fn states(&self) -> u32 {
        self.states
    }

    fn facts(&self) -> u8 {
        self.facts.get()
    }

    fn acts(&self) -> u8 {
        self.acts
    }

    fn first(&self) -> u32 {
        self.first
    }

    fn holds(&self, state: u32, fact: u8) -> bool {
        state < self.states
            && fact < self.facts.get()
            && holds(u32::from(self.valuation(state)), fact)
    }

    fn allowed(&self, state: u32, act: u8) -> bool {
        state < self.states && act < self.acts && self.has_move(state, act)
    }

    fn possible(&self, state: u32, act: u8, reaction: u8) -> bool {
        state < self.states
            && act < self.acts
            && reaction < REACTIONS
            && self.move_to(state, act, reaction).is_some()
    }

    fn after(&self, state: u32, act: u8, reaction: u8) -> u32 {
        if self.possible(state, act, reaction) {
            self.move_to(state, act, reaction).unwrap_or(0)
        } else {
            0
        }
    }
}
