ghost use Rattle.std.specs.Prelude.{◌≡◌, ◌*◌, ◌^◌, length};
ghost use Rattle.golog.specs.Points.{points};
ghost use Rattle.text.specs.Parse.{parsed_prog};
ghost use Rattle.routine.specs.Tables.{acts_before, StopsOf, NextsOf, GoingOf};

use crate::row::Row;
use crate::set::PointSet;
use locks::facts::FactCount;
use text::parsed::Parsed;

// The number that stands for no act: a number and no Option, since by its definition the word before point 0 is 255, and words are compared by it.
pub(crate) const NO_ACT: u8 = 255;

mod making;
mod reading;
mod ways;

// A program with what holds at each point under each valuation of its facts:
// the act words before the points, the rows, and the points that go on.
#[derive(Drop)]
pub(crate) struct Tables {
    program: Parsed,
    facts: FactCount,
    acts: Vec<u8>,
    // Flat, the rows of all points under one valuation after another: one block of memory, filled front to back, and a question is one look.
    rows: Vec<Row>,
    going: Vec<PointSet>,
    ghost every: { facts ≡ program.facts },
    ghost worded: { acts.items ≡ acts_before (parsed_prog program) },
    ghost stops: { StopsOf (parsed_prog program) rows.items },
    ghost nexts: { NextsOf (parsed_prog program) rows.items },
    ghost wide: { length rows.items ≡ 2 ^ facts * points (parsed_prog program) },
    ghost onward: { GoingOf (parsed_prog program) going.items },
    ghost long: { length going.items ≡ 2 ^ facts },
}
