ghost use Rattle.std.specs.Prelude.{◌≡◌, ℕ, ◌+◌, ◌<◌, ◌≤◌, true, false, List, [], ◌∷◌, ◌++◌, length, MatchOption, MatchResult, slice_index_or};
ghost use Rattle.words.specs.Names.{among, position};
ghost use Rattle.words.specs.Listed.{name_list};

use super::same_word;
use std::alloc::{AllocError, Global};

// Names in the order in which they came; a name's number is its place.
#[derive(Drop)]
pub struct Names {
    list: Vec<Vec<u8>>,
}

impl Names {
    pub fn new(heap: Global) -> Names
        ensures { name_list result ≡ [] }
    {
        Names {
            list: Vec::new(heap),
        }
    }

    pub fn count(&self) -> usize
        ensures { result ≡ length (name_list self.now) }
    {
        self.list.len()
    }

    pub fn get(&self, number: usize) -> Option<&[u8]>
        ensures { MatchOption result (length (name_list self.now) ≤ number) (λ w. (number < length (name_list self.now)) × (w.now ≡ slice_index_or (name_list self.now) number [])) }
    {
        self.list.get(number).map(|name| name.as_slice())
    }

    // Whether one of the names is this word.
    pub fn has(&self, word: &[u8]) -> bool
        ensures { result ≡ among word.now (name_list self.now) }
    {
        self.list
            .iter()
            .any(|name| same_word(word, name.as_slice()))
    }

    // The number of the first name that is this word.
    pub fn find(&self, word: &[u8]) -> Option<usize>
        ensures { result ≡ position (name_list self.now) word.now }
    {
        self.list
            .iter()
            .position(|name| same_word(name.as_slice(), word))
    }

    // One name more, behind the others; where memory is wanting the names stay as they were.
    pub fn add(&mut self, heap: Global, name: &[u8]) -> Result<(), AllocError>
        ensures { MatchResult result (λ _. name_list self.new ≡ name_list self.old ++ name.now ∷ []) (λ _. name_list self.new ≡ name_list self.old) }
    {
        let copy = Vec::from_slice(heap, name)?;
        self.list.push(copy)?;
        Ok(())
    }
}
