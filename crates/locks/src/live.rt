ghost use Rattle.std.specs.Prelude.{◌≡◌, MatchResult};
ghost use Rattle.locks.specs.Meaning.{Live};
ghost use Rattle.locks.specs.Stuck.{FirstStuck};

use crate::lock::{LiveLock, Lock};
use crate::stuck::{Stuck, first_stuck};

// A lock in which each allowed act has a possible reaction.
#[derive(Drop)]
pub struct Live<L: Lock> {
    lower: L,
    ghost live: { Live (L.Lock.meaning lower) },
}

impl<L: Lock + Drop> Live<L> {
    // Refused where an allowed act has no possible reaction: the lowest such act, in the lowest state.
    pub fn new(lower: L) -> Result<Live<L>, Stuck>
        ensures { MatchResult result (λ l. l.lower ≡ lower) (λ x. FirstStuck (L.Lock.meaning lower) x.act x.state) }
    {
        match first_stuck(&lower) {
            Some(stuck) => Err(stuck),
            None => Ok(Live { lower }),
        }
    }
}

// Each method is handed on by hand: an impl that a macro of the repository's own writes is not allowed.
impl<L: Lock> Lock for Live<L> {
    ghost meaning = { λ l. L.Lock.meaning l.lower };

    ghost lawful = { λ l. L.Lock.lawful l.lower };

    fn states(&self) -> u32 {
        self.lower.states()
    }

    fn facts(&self) -> u8 {
        self.lower.facts()
    }

    fn acts(&self) -> u8 {
        self.lower.acts()
    }

    fn first(&self) -> u32 {
        self.lower.first()
    }

    fn holds(&self, state: u32, fact: u8) -> bool {
        self.lower.holds(state, fact)
    }

    fn allowed(&self, state: u32, act: u8) -> bool {
        self.lower.allowed(state, act)
    }

    fn possible(&self, state: u32, act: u8, reaction: u8) -> bool {
        self.lower.possible(state, act, reaction)
    }

    fn after(&self, state: u32, act: u8, reaction: u8) -> u32 {
        self.lower.after(state, act, reaction)
    }
}

impl<L: Lock> LiveLock for Live<L> {
    ghost live = { λ l. l.live };
}
