ghost use Rattle.lowest.specs.Lowest.{lowest_lock};
ghost use Rattle.lowest.specs.LowestLaws.{lowest_lawful};

use crate::facts::FactLock;
use crate::listed::ListedLock;
use locks::lock::Lock;

// The lock at the bottom of a pile. Empty is the lock of one state, one fact and one act that says no to all.
#[derive(Drop)]
pub enum Lowest {
    Empty,
    Facts(FactLock),
    Listed(ListedLock),
}

// Each question names the three kinds: no function may hand out a dyn Lock, and no macro may write the impl.
impl Lock for Lowest {
    ghost meaning = { lowest_lock };

    ghost lawful = { lowest_lawful };

    fn states(&self) -> u32 {
        match self {
            Lowest::Empty => 1,
            Lowest::Facts(lock) => lock.states(),
            Lowest::Listed(lock) => lock.states(),
        }
    }

    fn facts(&self) -> u8 {
        match self {
            Lowest::Empty => 1,
            Lowest::Facts(lock) => lock.facts(),
            Lowest::Listed(lock) => lock.facts(),
        }
    }

    fn acts(&self) -> u8 {
        match self {
            Lowest::Empty => 1,
            Lowest::Facts(lock) => lock.acts(),
            Lowest::Listed(lock) => lock.acts(),
        }
    }

    fn first(&self) -> u32 {
        match self {
            Lowest::Empty => 0,
            Lowest::Facts(lock) => lock.first(),
            Lowest::Listed(lock) => lock.first(),
        }
    }

    fn holds(&self, state: u32, fact: u8) -> bool {
        match self {
            Lowest::Empty => false,
            Lowest::Facts(lock) => lock.holds(state, fact),
            Lowest::Listed(lock) => lock.holds(state, fact),
        }
    }

    // This and the next question are put where they are asked: the search for an act without reaction asks them of every state.
    #[inline(always)]
    fn allowed(&self, state: u32, act: u8) -> bool {
        match self {
            Lowest::Empty => false,
            Lowest::Facts(lock) => lock.allowed(state, act),
            Lowest::Listed(lock) => lock.allowed(state, act),
        }
    }

    #[inline(always)]
    fn possible(&self, state: u32, act: u8, reaction: u8) -> bool {
        match self {
            Lowest::Empty => false,
            Lowest::Facts(lock) => lock.possible(state, act, reaction),
            Lowest::Listed(lock) => lock.possible(state, act, reaction),
        }
    }

    fn after(&self, state: u32, act: u8, reaction: u8) -> u32 {
        match self {
            Lowest::Empty => 0,
            Lowest::Facts(lock) => lock.after(state, act, reaction),
            Lowest::Listed(lock) => lock.after(state, act, reaction),
        }
    }
}
