ghost use Rattle.std.specs.Prelude.{◌≡◌, ◌<◌, ◌≤◌, true, length};
ghost use Rattle.golog.specs.Programs.{names_below, acts_below};
ghost use Rattle.golog.specs.Points.{words};
ghost use Rattle.golog.specs.Reading.{most_act_words};
ghost use Rattle.tree.specs.Held.{nodes, prog_at};

use tree::tree::Tree;

pub mod reading;

// The program of a text: an entry of a tree, which names only facts and acts below their counts and has at most 63 act words.
#[derive(Drop)]
pub struct Parsed {
    tree: Tree,
    root: u16,
    facts: usize,
    acts: usize,
    ghost there: { root < length (nodes tree) },
    ghost of_facts: { names_below facts (prog_at tree root) ≡ true },
    ghost of_acts: { acts_below acts (prog_at tree root) ≡ true },
    ghost few: { words (prog_at tree root) ≤ most_act_words },
}
