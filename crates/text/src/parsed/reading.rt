ghost use Rattle.std.specs.Prelude.{◌≡◌, ◌≤◌, true, MatchResult};
ghost use Rattle.golog.specs.Programs.{names_below};
ghost use Rattle.golog.specs.Points.{words};
ghost use Rattle.golog.specs.Reading.{most_act_words};
ghost use Rattle.tree.specs.Held.{prog_at};
ghost use Rattle.text.specs.Parse.{ReadAs, RefusedAs, parsed_tree};

use super::Parsed;
use crate::fault::TextFault;
use crate::reader::whole::read_whole;
use std::alloc::Global;
use tree::tree::Tree;
use words::names::Names;

// The program of a text that names these facts and acts.
pub fn read(heap: Global, facts: &Names, acts: &Names, text: &[u8]) -> Result<Parsed, TextFault>
    ensures { MatchResult result (λ p. ReadAs facts.now acts.now text.now p) (λ f. RefusedAs facts.now acts.now text.now f) }
{
    let (tree, root) = read_whole(heap, facts, acts, text)?;
    Ok(Parsed {
        tree,
        root,
        facts: facts.count(),
        acts: acts.count(),
    })
}

impl Parsed {
    pub fn tree(&self) -> &Tree
        ensures { result.now ≡ parsed_tree self.now }
    {
        &self.tree
    }

    // The entry of the tree that is the program.
    pub fn root(&self) -> u16
        ensures { result ≡ self.now.root }
    {
        self.root
    }

    // How many facts the program may name.
    pub fn facts(&self) -> usize
        ensures { result ≡ self.now.facts }
    {
        self.facts
    }

    // How many acts the program may name.
    pub fn acts(&self) -> usize
        ensures { result ≡ self.now.acts }
    {
        self.acts
    }

    // The tree, its entry, and how many facts it may name.
    pub fn into_parts(self) -> (Tree, u16, usize)
        ensures parts { (result.0 ≡ self.tree) × (result.1 ≡ self.root) × (result.2 ≡ self.facts) }
        ensures named { names_below result.2 (prog_at result.0 result.1) ≡ true }
        ensures short { words (prog_at result.0 result.1) ≤ most_act_words }
    {
        let Parsed {
            tree,
            root,
            facts,
            acts: _,
        } = self;
        (tree, root, facts)
    }
}
