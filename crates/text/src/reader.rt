ghost use Rattle.std.specs.Prelude.{◌≤◌};
ghost use Rattle.golog.specs.Reading.{most_act_words, most_depth};

use crate::lexer::Words;
use crate::word::Token;
use tree::tree::Tree;
use words::names::Names;

mod conditions;
mod growing;
mod programs;
mod stepping;
pub mod whole;

// How a part of a text stands: what it may name, the offset at which words are missing, and how many parts are open round it.
#[derive(Clone, Copy)]
struct Level<'a> {
    facts: &'a Names,
    acts: &'a Names,
    end: usize,
    depth: usize,
    ghost shallow: { depth ≤ most_depth },
}

// A text that is being read: the words behind the word ahead, how many words and act words were taken, and what they gave.
#[derive(Drop)]
struct Reader<'a> {
    words: Words<'a>,
    // Beside the words, and not a Peekable of them: a peek changes the reader, and a look at this word leaves it as it is.
    ahead: Option<Token<'a>>,
    taken: usize,
    acts: usize,
    tree: Tree,
    ghost few: { acts ≤ most_act_words },
}
