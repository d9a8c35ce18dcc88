ghost use Rattle.std.specs.Prelude.{Some};
ghost use Rattle.routine.specs.Wording.{routine_words};

use super::RoutineFault;
use std::fmt;

impl fmt::Display for RoutineFault {
    ghost output = { λ f. Some (routine_words f) };

    fn fmt<W: fmt::Write>(&self, f: &mut fmt::Formatter<W>) -> fmt::Result {
        f.write_str(match self {
            RoutineFault::TwoWays { .. } =>
                "one act has two ways on from a point, and both may go on",
            RoutineFault::Memory => "there is no memory for what the routine says",
        })
    }
}
