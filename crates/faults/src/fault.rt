ghost use Rattle.std.specs.Prelude.{◌≡◌};
ghost use Rattle.faults.specs.declared.fault.FileFault.TheVariants.{Model, Text, Routine};
ghost use Rattle.model.specs.declared.fault.ModelFault.TheVariants.{Memory};

use model::fault::ModelFault;
use routine::fault::RoutineFault;
use std::alloc::AllocError;
use text::fault::TextFault;

pub mod telling;
mod wording;

// Why a job file is refused.
#[derive(Clone, Copy)]
pub enum FileFault {
    // It has more bytes than this, and no more are taken.
    TooLong(usize),
    // Its records or its model.
    Model(ModelFault),
    // The text of its routine.
    Text(TextFault),
    // Its routine.
    Routine(RoutineFault),
}

impl From<ModelFault> for FileFault {
    ghost from_gives = { λ e r. r ≡ Model e };

    fn from(e: ModelFault) -> FileFault {
        FileFault::Model(e)
    }
}

impl From<TextFault> for FileFault {
    ghost from_gives = { λ e r. r ≡ Text e };

    fn from(e: TextFault) -> FileFault {
        FileFault::Text(e)
    }
}

impl From<RoutineFault> for FileFault {
    ghost from_gives = { λ e r. r ≡ Routine e };

    fn from(e: RoutineFault) -> FileFault {
        FileFault::Routine(e)
    }
}

impl From<AllocError> for FileFault {
    ghost from_gives = { λ _ r. r ≡ Model Memory };

    fn from(_e: AllocError) -> FileFault {
        FileFault::Model(ModelFault::Memory)
    }
}
