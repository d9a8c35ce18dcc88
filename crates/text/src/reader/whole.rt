ghost use Rattle.std.specs.Prelude.{◌≡◌, ◌<◌, length, MatchResult};
ghost use Rattle.golog.specs.Reading.{read};
ghost use Rattle.golog.specs.Reading.Reading.{tree as a_tree};
ghost use Rattle.tree.specs.Held.{nodes, prog_at};
ghost use Rattle.text.specs.Faults.{Tells};
ghost use Rattle.text.specs.Rest.{both_names};

use super::{Level, Reader};
use crate::fault::TextFault;
use crate::lexer::Words;
use std::alloc::Global;
use tree::tree::Tree;
use words::names::Names;

// The tree of a whole text, and the entry that is its program.
pub(crate) fn read_whole(
    heap: Global,
    facts: &Names,
    acts: &Names,
    text: &[u8],
) -> Result<(Tree, u16), TextFault>
    ensures { MatchResult result (λ p. (p.1 < length (nodes p.0)) × (read (both_names facts.now acts.now) text.now ≡ a_tree (prog_at p.0 p.1))) (λ f. Tells f (read (both_names facts.now acts.now) text.now)) }
{
    let level = Level {
        facts,
        acts,
        end: text.len(),
        depth: 0,
    };
    let mut words = Words::new(text);
    let ahead = words.next();
    let mut reader = Reader {
        words,
        ahead,
        taken: 0,
        acts: 0,
        tree: Tree::new(heap),
    };
    let root = reader.choice(level)?;
    if reader.ahead.is_some() {
        return Err(reader.misplaced(level.end));
    }
    let Reader { tree, .. } = reader;
    Ok((tree, root))
}
