ghost use Rattle.golog.specs.Points.{OneWay};
ghost use Rattle.routine.specs.Kept.{kept_prog};

use crate::tables::Tables;

mod answering;
mod building;

// A program that has one way, with its tables; the program `nil` has none.
#[derive(Drop)]
pub struct Routine {
    tables: Option<Tables>,
    ghost one: { ∥ OneWay (kept_prog tables) ∥₁ },
}
