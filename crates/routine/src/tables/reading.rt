ghost use Rattle.std.specs.Prelude.{◌≡◌, ◌<◌, ◌≤◌};
ghost use Rattle.golog.specs.Points.{points, word, valuation as valued};
ghost use Rattle.routine.specs.Rows.{IsRow};
ghost use Rattle.text.specs.Parse.{parsed_tree};
ghost use Rattle.routine.specs.Kept.{tables_prog};

use super::{NO_ACT, Tables};
use crate::row::Row;
use crate::set::PointSet;
use tree::tree::Tree;

impl Tables {
    pub(crate) fn points(&self) -> u8
        ensures is { result ≡ points (tables_prog self.now) }
        ensures few { result ≤ 64 }
    {
        self.acts.len() as u8
    }

    // The act word before a point, or 255.
    pub(crate) fn word(&self, point: u32) -> u8
        ensures { result ≡ word (tables_prog self.now) point }
    {
        match self.acts.get(point as usize) {
            Some(act) => *act,
            None => NO_ACT,
        }
    }

    // The row of a point; past the last point nothing can be done.
    pub(crate) fn row(&self, point: u32, valuation: u32) -> Row
        ensures { IsRow (tables_prog self.now) (valued valuation) point result }
    {
        let count = self.acts.len();
        let number = valuation % self.facts.valuations();
        if (point as usize) < count {
            self.rows[number as usize * count + point as usize]
        } else {
            Row {
                stop: false,
                next: PointSet::EMPTY,
            }
        }
    }

    // The tree of the program, and its entry.
    pub(crate) fn tree(&self) -> (&Tree, u16)
        ensures { (result.0.now ≡ parsed_tree self.now.program) × (result.1 ≡ self.now.program.root) }
    {
        (self.program.tree(), self.program.root())
    }
}
