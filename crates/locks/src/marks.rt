ghost use Rattle.std.specs.Prelude.{◌≡◌, ◌+◌, ◌*◌, true, false, not, ◌&&◌, length, replicate, if◌then◌else◌, slice_set};
ghost use Rattle.locks.specs.Meaning.{most_acts, reactions};
ghost use Rattle.locks.specs.Allowed.{marks_list, markable, marked};

use crate::lock::{MOST_ACTS, REACTIONS, reaction_place};

// Eight to each of 31 acts.
const MARKS: usize = MOST_ACTS as usize * REACTIONS as usize;

// Which reactions of which acts are marked.
#[derive(Clone, Copy)]
pub struct Marks {
    // Flat, and of fixed length: marks are copied with a layer, and a mark is one look.
    table: [bool; MARKS],
}

impl Marks {
    // Nothing is marked.
    pub fn none() -> Marks
        ensures { marks_list result ≡ replicate (most_acts * reactions) false }
    {
        Marks {
            table: [false; MARKS],
        }
    }

    // Whether the reaction of the act is marked.
    pub fn has(&self, act: u8, reaction: u8) -> bool
        ensures { result ≡ marked self.now act reaction }
    {
        act < MOST_ACTS && reaction < REACTIONS && self.table[reaction_place(act, reaction)]
    }

    // Marks the reaction; false, and nothing changed, if it cannot be marked or is already. A bool, as the insert of a set of std's.
    pub fn add(&mut self, act: u8, reaction: u8) -> bool
        ensures answer { result ≡ (markable act reaction && not (marked self.old act reaction)) }
        ensures marks { marks_list self.new ≡ (if result then slice_set (marks_list self.old) (act * reactions + reaction) true else marks_list self.old) }
        ensures places { length (marks_list self.old) ≡ most_acts * reactions }
    {
        if act >= MOST_ACTS || reaction >= REACTIONS || self.has(act, reaction) {
            return false;
        }
        self.table[reaction_place(act, reaction)] = true;
        true
    }
}
