ghost use Rattle.std.specs.Prelude.{◌≡◌};
ghost use Rattle.golog.specs.Programs.{nil};
ghost use Rattle.text.specs.Parse.{parsed_prog};
ghost use Rattle.routine.specs.Routines.{routine_prog, Built};

use super::Routine;
use crate::fault::RoutineFault;
use crate::tables::Tables;
use locks::facts::FactCount;
use std::alloc::Global;
use text::parsed::Parsed;

impl Routine {
    // The empty program.
    pub fn nil() -> Routine
        ensures { routine_prog result ≡ nil }
    {
        Routine { tables: None }
    }

    // The program of a text, if it has one way. More facts than a lock can have get no tables.
    pub fn new(heap: Global, parsed: Parsed) -> Result<Routine, RoutineFault>
        ensures { Built parsed.facts (parsed_prog parsed) result }
    {
        let facts = u8::try_from(parsed.facts())
            .ok()
            .and_then(|facts| FactCount::new(facts))
            .ok_or(RoutineFault::Memory)?;
        let tables = Tables::new(heap, parsed, facts)?;
        match tables.ways() {
            None => Ok(Routine {
                tables: Some(tables),
            }),
            Some((from, first, second)) => Err(RoutineFault::TwoWays {
                from,
                first,
                second,
            }),
        }
    }
}
