ghost use Rattle.std.specs.Prelude.{Some};
ghost use Rattle.faults.specs.Wording.{fault_words};

use super::FileFault;
use std::fmt;

impl fmt::Display for FileFault {
    ghost output = { λ f. Some (fault_words f) };

    fn fmt<W: fmt::Write>(&self, f: &mut fmt::Formatter<W>) -> fmt::Result {
        match self {
            FileFault::TooLong(_) => f.write_str("the file is too long"),
            FileFault::Model(inner) => write!(f, "{inner}"),
            FileFault::Text(inner) => write!(f, "{inner}"),
            FileFault::Routine(inner) => write!(f, "{inner}"),
        }
    }
}
