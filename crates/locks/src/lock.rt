ghost use Rattle.std.specs.Prelude.{◌≡◌, ◌+◌, ◌*◌};
ghost use Rattle.locks.specs.Meaning.{Meaning, Lawful, Live, Named, reactions};

use crate::stuck::lowest_possible;

// The most that a lock may have.
pub const MOST_STATES: u32 = 32_768;

pub const MOST_FACTS: u8 = 12;

pub const MOST_ACTS: u8 = 31;

// How many reactions an act may have, and the name of none of them.
pub const REACTIONS: u8 = 8;

pub const NO_REACTION: u8 = 255;

// Where a reaction of an act stands in a table of eight places to an act.
pub fn reaction_place(act: u8, reaction: u8) -> usize
    ensures { result ≡ act * reactions + reaction }
{
    usize::from(act) * usize::from(REACTIONS) + usize::from(reaction)
}

// State, act and reaction are numbers side by side and no struct: each question is asked for every act, or every reaction, in turn.
// A lock, by its meaning. A question changes nothing; a number out of range gets no.
pub trait Lock {
    ghost meaning: { Self → Meaning };

    fn states(&self) -> u32
        ensures { result ≡ (meaning self.now).states };

    fn facts(&self) -> u8
        ensures { result ≡ (meaning self.now).facts };

    fn acts(&self) -> u8
        ensures { result ≡ (meaning self.now).acts };

    fn first(&self) -> u32
        ensures { result ≡ (meaning self.now).first };

    fn holds(&self, state: u32, fact: u8) -> bool
        ensures { result ≡ (meaning self.now).holds state fact };

    fn allowed(&self, state: u32, act: u8) -> bool
        ensures { result ≡ (meaning self.now).allowed state act };

    fn possible(&self, state: u32, act: u8, reaction: u8) -> bool
        ensures { result ≡ (meaning self.now).possible state act reaction };

    // The state after a possible reaction, and 0 after an impossible one.
    fn after(&self, state: u32, act: u8, reaction: u8) -> u32
        ensures { result ≡ (meaning self.now).after state act reaction };

    ghost lawful: { (l : Self) → Lawful (meaning l) };
}

// A lock of which each allowed act has a reaction, and that names the lowest.
pub trait LiveLock: Lock {
    // The lowest possible reaction of an allowed act, and 255 of any other. Not an Option: by the project's rule 255
    // names none, here as in the rows of sheets.
    fn named(&self, state: u32, act: u8) -> u8
        ensures { Named (Self.Lock.meaning self.now) state act result }
    {
        lowest_possible(self, state, act).unwrap_or(NO_REACTION)
    }

    ghost live: { (l : Self) → Live (Self.Lock.meaning l) };
}
