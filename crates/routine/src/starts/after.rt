ghost use Rattle.std.specs.Prelude.{◌≡◌, suc, ◌<◌, ◌≤◌, length, slice_index_or};
ghost use Rattle.golog.specs.Points.{no_act, act_words, valuation as valued};
ghost use Rattle.tree.specs.Held.{prog_at};
ghost use Rattle.text.specs.Parse.{parsed_tree, parsed_prog};
ghost use Rattle.routine.specs.Rows.{IsRow};

use super::Beginnings;
use crate::row::Row;
use crate::set::PointSet;
use crate::tables::NO_ACT;
use tree::node::Node;

impl Beginnings<'_> {
    // The row of the point after an act word of the entry, the first of them 0.
    fn after(&self, i: u16, word: u8) -> Row
        requires within { i < length self.now.starts.items }
        requires low { word < 64 }
        ensures { IsRow (prog_at (parsed_tree self.now.program.now) i) (valued self.now.valuation) (suc word) result }
    {
        match self.node(i) {
            Node::Act(_) => Row {
                stop: word == 0,
                next: PointSet::EMPTY,
            },
            Node::Test(_) => Row {
                stop: false,
                next: PointSet::EMPTY,
            },
            Node::Seq(a, b) => {
                let by = self.start(a).words;
                if word < by {
                    self.after(a, word).then(self.start(b).row, by)
                } else {
                    self.after(b, word - by).moved_up(by)
                }
            }
            Node::Alt(a, b) => {
                let by = self.start(a).words;
                if word < by {
                    self.after(a, word)
                } else {
                    self.after(b, word - by).moved_up(by)
                }
            }
            Node::Star(a) => self.after(a, word).then(self.start(i).row, 0),
        }
    }

    // The act word of the entry with the number, the first of them 0, or 255.
    pub(super) fn act(&self, i: u16, word: u8) -> u8
        requires within { i < length self.now.starts.items }
        requires low { word < 64 }
        ensures { result ≡ slice_index_or (act_words (prog_at (parsed_tree self.now.program.now) i)) word no_act }
    {
        match self.node(i) {
            Node::Act(act) => if word == 0 { act } else { NO_ACT },
            Node::Test(_) => NO_ACT,
            Node::Seq(a, b) | Node::Alt(a, b) => {
                let by = self.start(a).words;
                if word < by {
                    self.act(a, word)
                } else {
                    self.act(b, word - by)
                }
            }
            Node::Star(a) => self.act(a, word),
        }
    }

    // The row of a point of the program.
    pub(super) fn row(&self, point: u8) -> Row
        requires low { point ≤ 64 }
        ensures { IsRow (parsed_prog self.now.program.now) (valued self.now.valuation) point result }
    {
        let root = self.program.root();
        if point == 0 {
            self.start(root).row
        } else {
            self.after(root, point - 1)
        }
    }
}
