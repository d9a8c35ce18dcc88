ghost use Rattle.std.specs.Prelude.{◌≡◌, ◌+◌, ◌*◌, ◌<◌, true, false, not, ◌&&◌, [], ◌∷◌, ◌++◌, length, is_ok, if◌then◌else◌, Some, MatchResult, IfErr, slice_set};
ghost use Rattle.lowest.specs.Listed.{move_place, move_in, listed_range};
ghost use Rattle.lowest.specs.ListedViews.{listed_valuations, listed_moves, listable, move_fits, move_within, SameNumbers, FreshListed};

use super::{ListedLock, MOST_LISTED};
use crate::counts::counted;
use crate::refused::Refused;
use crate::table::at;
use crate::unmade::Unmade;
use locks::lock::REACTIONS;
use std::alloc::Global;

// Where the move of the state, the act and the reaction stands.
fn place(acts: u8, state: u32, act: u8, reaction: u8) -> usize
    ensures { result ≡ move_place acts state act reaction }
{
    (state as usize * usize::from(acts) + usize::from(act)) * usize::from(REACTIONS)
        + usize::from(reaction)
}

impl ListedLock {
    // A lock with no state listed yet and no move; refused if a number is out of range, else for want of memory.
    pub fn new(
        heap: Global,
        facts: u8,
        acts: u8,
        first: u32,
        states: u32,
    ) -> Result<ListedLock, Unmade>
        ensures { MatchResult result (λ l. (listed_range facts acts first states ≡ true) × FreshListed facts acts first states l) (λ e. e ≡ (if listed_range facts acts first states then Unmade.Memory else Unmade.Range)) }
    {
        let facts = counted(facts, acts).ok_or(Unmade::Range)?;
        if !(1..=MOST_LISTED).contains(&states) || first >= states {
            return Err(Unmade::Range);
        }
        let places = states as usize * usize::from(acts) * usize::from(REACTIONS);
        let moves = vec![in heap; None; places]?;
        Ok(ListedLock {
            facts,
            acts,
            first,
            states,
            valuations: Vec::new(heap),
            moves,
        })
    }

    // How many states are listed so far.
    pub fn listed(&self) -> u32
        ensures { result ≡ length (listed_valuations self.now) }
    {
        self.valuations.len() as u32
    }

    // Lists one more state; refused if all are listed or a bit is not of a fact, else for want of memory.
    pub fn add_state(&mut self, valuation: u16) -> Result<(), Unmade>
        ensures answer { MatchResult result (λ _. listable self.old valuation ≡ true) (λ e. e ≡ (if listable self.old valuation then Unmade.Memory else Unmade.Range)) }
        ensures valuations { listed_valuations self.new ≡ (if is_ok result then listed_valuations self.old ++ valuation ∷ [] else listed_valuations self.old) }
        ensures moves { listed_moves self.new ≡ listed_moves self.old }
        ensures rest { SameNumbers self.old self.new }
    {
        if self.listed() >= self.states || !self.facts.covers(valuation) {
            return Err(Unmade::Range);
        }
        self.valuations.push(valuation).map_err(|_| Unmade::Memory)
    }

    // The state after the reaction, if it has a move.
    pub fn move_to(&self, state: u32, act: u8, reaction: u8) -> Option<u32>
        ensures { result ≡ move_in self.now.acts (listed_moves self.now) state act reaction }
    {
        if act >= self.acts || reaction >= REACTIONS {
            return None;
        }
        at(&self.moves, place(self.acts, state, act, reaction)).map(u32::from)
    }

    // Gives the state, the act and the reaction their move. Refused, and nothing changed, if a number is out of range,
    // and else if they have one.
    pub fn add_move(&mut self, state: u32, act: u8, reaction: u8, after: u32) -> Result<(), Refused>
        ensures answer { is_ok result ≡ move_fits self.old state act reaction after }
        ensures ground { IfErr result (λ e. e ≡ (if move_within self.old state act reaction after then Refused.Taken else Refused.Range)) }
        ensures moves { listed_moves self.new ≡ (if is_ok result then slice_set (listed_moves self.old) (move_place self.old.acts state act reaction) (Some after) else listed_moves self.old) }
        ensures valuations { listed_valuations self.new ≡ listed_valuations self.old }
        ensures rest { SameNumbers self.old self.new }
        ensures kept { is_ok result ≡ false → self.new ≡ self.old }
    {
        if state >= self.states
            || act >= self.acts
            || reaction >= REACTIONS
            || after >= self.states
        {
            return Err(Refused::Range);
        }
        if self.move_to(state, act, reaction).is_some() {
            return Err(Refused::Taken);
        }
        let place = place(self.acts, state, act, reaction);
        self.moves[place] = Some(after as u16);
        Ok(())
    }
}
