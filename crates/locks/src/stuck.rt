ghost use Rattle.std.specs.Prelude.{◌≡◌, ℕ, false, MatchOption};
ghost use Rattle.locks.specs.Meaning.{Live, reacts};
ghost use Rattle.locks.specs.Stuck.{stuck, LowestPossible, LowestStuck, FirstStuck};

use crate::lock::{Lock, REACTIONS};

// An allowed act without a possible reaction, and the state in which it is so.
#[derive(Clone, Copy)]
pub struct Stuck {
    pub act: u8,
    pub state: u32,
}

// The lowest possible reaction of the act in the state.
pub fn lowest_possible<L: Lock>(lock: &L, state: u32, act: u8) -> Option<u8>
    ensures { MatchOption result (reacts (L.Lock.meaning lock.now) state act ≡ false) (LowestPossible (L.Lock.meaning lock.now) state act) }
{
    (0..REACTIONS).find(|reaction| lock.possible(state, act, *reaction))
}

fn is_stuck<L: Lock>(lock: &L, state: u32, act: u8) -> bool
    ensures { result ≡ stuck (L.Lock.meaning lock.now) state act }
{
    lock.allowed(state, act) && lowest_possible(lock, state, act).is_none()
}

// The lowest state in which the act is stuck.
fn stuck_state<L: Lock>(lock: &L, act: u8) -> Option<u32>
    ensures { MatchOption result ((s : ℕ) → stuck (L.Lock.meaning lock.now) s act ≡ false) (LowestStuck (L.Lock.meaning lock.now) act) }
{
    (0..lock.states()).find(|state| is_stuck(lock, *state, act))
}

// The lowest act that is stuck anywhere, with the lowest state in which it is; none of a live lock.
pub fn first_stuck<L: Lock>(lock: &L) -> Option<Stuck>
    ensures { MatchOption result (Live (L.Lock.meaning lock.now)) (λ x. FirstStuck (L.Lock.meaning lock.now) x.act x.state) }
{
    // Not find_map: where that finds nothing, its contract does not say that every act was asked.
    (0..lock.acts())
        .filter_map(|act| stuck_state(lock, act).map(|state| Stuck { act, state }))
        .next()
}
