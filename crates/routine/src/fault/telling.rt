ghost use Rattle.std.specs.Prelude.{◌≡◌};
ghost use Rattle.routine.specs.Faults.{routine_number, fault_layer, routine_place};

use super::RoutineFault;

impl RoutineFault {
    pub fn number(self) -> u8
        ensures { result ≡ routine_number self }
    {
        match self {
            RoutineFault::TwoWays { .. } => 11,
            RoutineFault::Memory => 0,
        }
    }

    pub fn layer(self) -> u8
        ensures { result ≡ fault_layer self }
    {
        match self {
            RoutineFault::TwoWays { .. } => 4,
            RoutineFault::Memory => 0,
        }
    }

    pub fn place(self) -> u32
        ensures { result ≡ routine_place self }
    {
        match self {
            RoutineFault::TwoWays {
                from,
                first,
                second,
            } => from as u32 * 4_096 + first as u32 * 64 + second as u32,
            RoutineFault::Memory => 0,
        }
    }
}
