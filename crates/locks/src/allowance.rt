ghost use Rattle.std.specs.Prelude.{◌≡◌, ◌+◌, ◌-◌, ◌*◌, ◌/◌, ◌%◌, ◌<◌, ◌≤◌, true, false, ◌&&◌, if◌then◌else◌, Some, None, MatchResult};
ghost use Rattle.locks.specs.Allowed.{marked, allowance, unmarked_possible, layer_fault};
ghost use Rattle.locks.specs.Layer.{layered, fits, admitted};
ghost use Rattle.locks.specs.LayerLaws.{layered_lawful, layered_live};
ghost use Rattle.locks.specs.AllowanceLaws.{allowance_sound, allowance_lively};
ghost use Rattle.locks.specs.Wording.{layer_words};

use crate::lock::{LiveLock, Lock, MOST_STATES, REACTIONS};
use crate::marks::Marks;
use std::fmt;

// The most marked reactions that an allowance may bear.
pub const MOST_BORNE: u8 = 7;

// Why a layer is refused: the allowance is above 7, or the layer would have this many states, which are too many.
#[derive(Clone, Copy)]
pub enum LayerFault {
    Allowance(u8),
    States(u32),
}

impl fmt::Display for LayerFault {
    ghost output = { λ f. Some (layer_words f) };

    fn fmt<W: fmt::Write>(&self, f: &mut fmt::Formatter<W>) -> fmt::Result {
        f.write_str(match self {
            LayerFault::Allowance(_) => "the allowance is above 7",
            LayerFault::States(_) => "the layer has more than 32768 states",
        })
    }
}

// A refused making hands the lower lock back.
#[derive(Drop)]
pub struct RefusedLayer<L> {
    pub lower: L,
    pub fault: LayerFault,
}

// The lock below, where at most so many marked reactions come while an unmarked one is possible.
#[derive(Drop)]
pub struct Allowance<L> {
    lower: L,
    marks: Marks,
    most: u8,
    ghost small: { most ≤ 7 },
}

impl<L: Lock> Allowance<L> {
    // Refused if the allowance is above 7, and then if the layer would have too many states.
    pub fn new(lower: L, marks: Marks, most: u8) -> Result<Allowance<L>, RefusedLayer<L>>
        ensures { MatchResult result (λ p. (layer_fault (L.Lock.meaning lower) most ≡ None) × (p.lower ≡ lower) × (p.marks ≡ marks) × (p.most ≡ most)) (λ e. (layer_fault (L.Lock.meaning lower) most ≡ Some e.fault) × (e.lower ≡ lower)) }
    {
        if most > MOST_BORNE {
            return Err(RefusedLayer {
                lower,
                fault: LayerFault::Allowance(most),
            });
        }
        let states = lower.states() * (u32::from(most) + 1);
        if states > MOST_STATES {
            return Err(RefusedLayer {
                lower,
                fault: LayerFault::States(states),
            });
        }
        Ok(Allowance { lower, marks, most })
    }

    fn size(&self) -> u32
        ensures { result ≡ self.now.most + 1 }
    {
        u32::from(self.most) + 1
    }

    // Whether the layer has few enough states for a lock; if not, it means the lock below.
    fn fits(&self) -> bool
        ensures { result ≡ fits (L.Lock.meaning self.now.lower) (self.now.most + 1) }
    {
        self.lower.states() * self.size() <= MOST_STATES
    }

    // The state of the lock below and how many marked reactions are left; nothing if the layer means the lock below.
    fn parts(&self, state: u32) -> Option<(u32, u32)>
        ensures { result ≡ (if fits (L.Lock.meaning self.now.lower) (self.now.most + 1) then Some (state / (self.now.most + 1), state % (self.now.most + 1)) else None) }
    {
        self.fits()
            .then(|| (state / self.size(), state % self.size()))
    }

    // The state of the lock below.
    fn below(&self, state: u32) -> u32
        ensures { result ≡ (if fits (L.Lock.meaning self.now.lower) (self.now.most + 1) then state / (self.now.most + 1) else state) }
    {
        if self.fits() {
            state / self.size()
        } else {
            state
        }
    }

    fn unmarked_possible(&self, below: u32, act: u8) -> bool
        ensures { result ≡ unmarked_possible (marked self.now.marks) ((L.Lock.meaning self.now.lower).possible below act) act }
    {
        (0..REACTIONS).any(|reaction| {
            self.lower.possible(below, act, reaction) && !self.marks.has(act, reaction)
        })
    }

    fn admits(&self, below: u32, left: u32, act: u8, reaction: u8) -> bool
        ensures { result ≡ admitted (allowance (marked self.now.marks) self.now.most) ((L.Lock.meaning self.now.lower).possible below act) left act reaction }
    {
        self.lower.possible(below, act, reaction)
            && (!self.marks.has(act, reaction) || left > 0 || !self.unmarked_possible(below, act))
    }

    fn next_left(&self, left: u32, act: u8, reaction: u8) -> u32
        ensures value { result ≡ (if marked self.now.marks act reaction then left - 1 else left) }
        ensures within { result ≤ left }
    {
        if self.marks.has(act, reaction) {
            left.saturating_sub(1)
        } else {
            left
        }
    }
}

impl<L: Lock> Lock for Allowance<L> {
    ghost meaning = { λ p. layered (L.Lock.meaning p.lower) (allowance (marked p.marks) p.most) };

    ghost lawful = { λ p. layered_lawful (L.Lock.meaning p.lower) (allowance (marked p.marks) p.most) (L.Lock.lawful p.lower) (allowance_sound (marked p.marks) p.most) };

    fn states(&self) -> u32 {
        let below = self.lower.states();
        let all = below * self.size();
        if all <= MOST_STATES { all } else { below }
    }

    fn facts(&self) -> u8 {
        self.lower.facts()
    }

    fn acts(&self) -> u8 {
        self.lower.acts()
    }

    fn first(&self) -> u32 {
        if self.fits() {
            self.lower.first() * self.size() + u32::from(self.most)
        } else {
            self.lower.first()
        }
    }

    fn holds(&self, state: u32, fact: u8) -> bool {
        self.lower.holds(self.below(state), fact)
    }

    fn allowed(&self, state: u32, act: u8) -> bool {
        self.lower.allowed(self.below(state), act)
    }

    fn possible(&self, state: u32, act: u8, reaction: u8) -> bool {
        match self.parts(state) {
            Some((below, left)) => self.admits(below, left, act, reaction),
            None => self.lower.possible(state, act, reaction),
        }
    }

    fn after(&self, state: u32, act: u8, reaction: u8) -> u32 {
        match self.parts(state) {
            Some((below, left)) if self.admits(below, left, act, reaction) => {
                self.lower.after(below, act, reaction) * self.size()
                    + self.next_left(left, act, reaction)
            }
            Some(_) => 0,
            None => self.lower.after(state, act, reaction),
        }
    }
}

impl<L: LiveLock> LiveLock for Allowance<L> {
    ghost live = { λ p. layered_live (L.Lock.meaning p.lower) (allowance (marked p.marks) p.most) (L.LiveLock.live p.lower) (allowance_lively (marked p.marks) p.most) };
}
