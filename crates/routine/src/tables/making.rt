ghost use Rattle.std.specs.Prelude.{◌≡◌, ◌*◌, ◌^◌, length, IfOk};
ghost use Rattle.golog.specs.Points.{points};
ghost use Rattle.text.specs.Parse.{parsed_prog};
ghost use Rattle.routine.specs.Tables.{RowsOf, GoingOf};

use super::Tables;
use crate::row::Row;
use crate::set::PointSet;
use crate::starts::Beginnings;
use locks::facts::FactCount;
use std::alloc::{AllocError, Global};
use text::parsed::Parsed;

// The rows of all points, and the points that go on, under all valuations of so many facts.
fn filled(
    heap: Global,
    program: &Parsed,
    facts: FactCount,
) -> Result<(Vec<Row>, Vec<PointSet>), AllocError>
    ensures rows { IfOk result (λ t. RowsOf (parsed_prog program.now) t.0.items) }
    ensures wide { IfOk result (λ t. length t.0.items ≡ 2 ^ facts * points (parsed_prog program.now)) }
    ensures going { IfOk result (λ t. GoingOf (parsed_prog program.now) t.1.items) }
    ensures long { IfOk result (λ t. length t.1.items ≡ 2 ^ facts) }
{
    let mut rows = Vec::new(heap);
    let mut going = Vec::new(heap);
    // A loop and no chain: each push may fail.
    for valuation in 0..facts.valuations() {
        let beginnings = Beginnings::new(heap, program, valuation)?;
        going.push(beginnings.push_rows(&mut rows)?)?;
    }
    Ok((rows, going))
}

impl Tables {
    // The tables of a program of so many facts.
    pub(crate) fn new(heap: Global, program: Parsed, facts: FactCount) -> Result<Tables, AllocError>
        requires { facts ≡ program.facts }
        ensures { IfOk result (λ t. t.program ≡ program) }
    {
        let acts = Beginnings::new(heap, &program, 0)?.acts(heap)?;
        let (rows, going) = filled(heap, &program, facts)?;
        Ok(Tables {
            program,
            facts,
            acts,
            rows,
            going,
        })
    }
}
