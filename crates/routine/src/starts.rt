ghost use Rattle.std.specs.Prelude.{◌≡◌, true, ◌+◌, ◌<◌, ◌≤◌, ◌&&◌, ◌||◌, min, length, slice_index_or, IfOk};
ghost use Rattle.golog.specs.Points.{points, valuation as valued};
ghost use Rattle.tree.specs.Trees.{prog_lower};
ghost use Rattle.tree.specs.Held.{clauses, nodes, prog_at};
ghost use Rattle.text.specs.Parse.{parsed_tree, parsed_prog};
ghost use Rattle.routine.specs.Sets.{has, Holds, moved};
ghost use Rattle.routine.specs.Rows.{IsStart, Starts};

use crate::condition::value;
use crate::entry::node_at;
use crate::row::{Row, Start};
use crate::set::PointSet;
use std::alloc::{AllocError, Global};
use text::parsed::Parsed;
use tree::node::Node;
use tree::tree::Tree;

mod after;
mod filling;

// The most act words that are counted.
const ROOM: u8 = 64;

// How a program and its parts begin under a valuation: the entries of its tree, up to its own.
#[derive(Drop)]
pub(crate) struct Beginnings<'a> {
    program: &'a Parsed,
    valuation: u32,
    starts: Vec<Start>,
    ghost known: { Starts (parsed_tree program.now) (valued valuation) starts.items },
    ghost whole: { length starts.items ≡ program.now.root + 1 },
}

impl Start {
    // One after the other.
    fn then(self, second: Start) -> Start
        requires few { (self.words ≤ 64) × (second.words ≤ 64) }
        ensures words { result.words ≡ min 64 (self.words + second.words) }
        ensures stop { result.row.stop ≡ (self.row.stop && second.row.stop) }
        ensures next { Holds result.row.next (λ j. has self.row.next j || (self.row.stop && moved self.words (has second.row.next) j)) }
    {
        Start {
            words: (self.words + second.words).min(ROOM),
            row: self.row.then(second.row, self.words),
        }
    }

    // A choice of the two.
    fn or(self, second: Start) -> Start
        requires few { (self.words ≤ 64) × (second.words ≤ 64) }
        ensures words { result.words ≡ min 64 (self.words + second.words) }
        ensures stop { result.row.stop ≡ (self.row.stop || second.row.stop) }
        ensures next { Holds result.row.next (λ j. has self.row.next j || moved self.words (has second.row.next) j) }
    {
        Start {
            words: (self.words + second.words).min(ROOM),
            row: self.row.or(second.row, self.words),
        }
    }
}

// The beginning of the entry whose parts begin as the list says.
fn start(tree: &Tree, starts: &[Start], i: u16, valuation: u32) -> Start
    requires known { Starts tree.now (valued valuation) starts.now }
    requires within { i ≤ length starts.now }
    ensures { IsStart (prog_at tree.now i) (valued valuation) result }
{
    match node_at(tree, i) {
        Node::Act(_) => Start {
            words: 1,
            row: Row {
                stop: false,
                next: PointSet::single(1),
            },
        },
        Node::Test(c) => Start {
            words: 0,
            row: Row {
                stop: value(tree, c, valuation),
                next: PointSet::EMPTY,
            },
        },
        Node::Seq(a, b) => starts[a as usize].then(starts[b as usize]),
        Node::Alt(a, b) => starts[a as usize].or(starts[b as usize]),
        Node::Star(a) => {
            let again = starts[a as usize];
            Start {
                words: again.words,
                row: Row {
                    stop: true,
                    next: again.row.next,
                },
            }
        }
    }
}

impl<'a> Beginnings<'a> {
    // The beginnings under a valuation, from the lowest entry up.
    pub(crate) fn new(
        heap: Global,
        program: &'a Parsed,
        valuation: u32,
    ) -> Result<Beginnings<'a>, AllocError>
        ensures { IfOk result (λ b. (b.program.now ≡ program.now) × (b.valuation ≡ valuation)) }
    {
        let tree = program.tree();
        let mut starts = Vec::new(heap);
        // A loop and no chain: each push may fail, and each beginning is made from those before.
        for i in 0..=program.root() {
            starts.push(start(tree, starts.as_slice(), i, valuation))?;
        }
        Ok(Beginnings {
            program,
            valuation,
            starts,
        })
    }

    // How many points the program has.
    fn points(&self) -> u8
        ensures is { result ≡ points (parsed_prog self.now.program.now) }
        ensures few { result ≤ 64 }
    {
        self.start(self.program.root()).words + 1
    }

    // How an entry begins.
    fn start(&self, i: u16) -> Start
        requires within { i < length self.now.starts.items }
        ensures { IsStart (prog_at (parsed_tree self.now.program.now) i) (valued self.now.valuation) result }
    {
        self.starts[i as usize]
    }

    // The entry of the program's tree with the number.
    fn node(&self, i: u16) -> Node
        ensures is { result ≡ slice_index_or (nodes (parsed_tree self.now.program.now)) i (Node.Act 0) }
        ensures lower { prog_lower (length (clauses (parsed_tree self.now.program.now))) i result ≡ true }
    {
        node_at(self.program.tree(), i)
    }
}
