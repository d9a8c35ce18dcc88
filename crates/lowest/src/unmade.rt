ghost use Rattle.std.specs.Prelude.{◌≡◌};
ghost use Rattle.lowest.specs.declared.unmade.Unmade.TheVariants.{Memory};

use std::alloc::AllocError;

// Why a lock is not made, or not made longer: a number out of its range, or no memory.
#[derive(Clone, Copy)]
pub enum Unmade {
    Range,
    Memory,
}

impl From<AllocError> for Unmade {
    ghost from_gives = { λ _ r. r ≡ Memory };

    fn from(_e: AllocError) -> Unmade {
        Unmade::Memory
    }
}
