ghost use Rattle.std.specs.Prelude.{◌≡◌, ◌+◌, ◌*◌, length, IfOk, OnOk};
ghost use Rattle.golog.specs.Points.{points, goes_on, valuation as valued};
ghost use Rattle.text.specs.Parse.{parsed_prog};
ghost use Rattle.routine.specs.Sets.{Holds};
ghost use Rattle.routine.specs.Tables.{acts_before, RowsOf};

use super::Beginnings;
use crate::row::Row;
use crate::set::PointSet;
use crate::tables::NO_ACT;
use std::alloc::{AllocError, Global};

impl Beginnings<'_> {
    // The act word before each point; 255 before the first.
    pub(crate) fn acts(&self, heap: Global) -> Result<Vec<u8>, AllocError>
        ensures { IfOk result (λ a. a.items ≡ acts_before (parsed_prog self.now.program.now)) }
    {
        let mut acts = Vec::new(heap);
        acts.push(NO_ACT)?;
        let root = self.program.root();
        // A loop and no chain: each push may fail.
        for word in 0..self.points() - 1 {
            acts.push(self.act(root, word))?;
        }
        Ok(acts)
    }

    // One row more for each point, behind those of the valuations before; and the points that go on.
    pub(crate) fn push_rows(&self, rows: &mut Vec<Row>) -> Result<PointSet, AllocError>
        requires known { RowsOf (parsed_prog self.now.program.now) rows.old.items }
        requires len { length rows.old.items ≡ self.now.valuation * points (parsed_prog self.now.program.now) }
        ensures rows { OnOk result (RowsOf (parsed_prog self.now.program.now) rows.new.items) }
        ensures len { OnOk result (length rows.new.items ≡ (self.now.valuation + 1) * points (parsed_prog self.now.program.now)) }
        ensures going { IfOk result (λ s. Holds s (goes_on (parsed_prog self.now.program.now) (valued self.now.valuation))) }
    {
        let mut going = PointSet::EMPTY;
        // A loop and no chain: each push may fail.
        for point in 0..self.points() {
            let row = self.row(point);
            rows.push(row)?;
            if row.goes_on() {
                going = going.union(PointSet::single(point));
            }
        }
        Ok(going)
    }
}
