ghost use Rattle.std.specs.Prelude.{◌≡◌};
ghost use Rattle.routine.specs.declared.fault.RoutineFault.TheVariants.{Memory};

use std::alloc::AllocError;

mod telling;
mod wording;

// Why no routine is made of a program.
#[derive(Clone, Copy)]
pub enum RoutineFault {
    // From one point, one act leads to two points that both may go on.
    TwoWays { from: u8, first: u8, second: u8 },
    // No memory for the tables: no fault of the program.
    Memory,
}

impl From<AllocError> for RoutineFault {
    ghost from_gives = { λ _ r. r ≡ Memory };

    fn from(_e: AllocError) -> RoutineFault {
        RoutineFault::Memory
    }
}
