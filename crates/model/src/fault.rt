ghost use Rattle.std.specs.Prelude.{◌≡◌, Some};
ghost use Rattle.model.specs.Wording.{model_words};
ghost use Rattle.model.specs.declared.fault.ModelFault.TheVariants.{Record, Stuck, Layer, Memory};

use locks::allowance::LayerFault;
use locks::stuck;
use records::RecordFault;
use std::alloc::AllocError;
use std::fmt;

// What is wrong with the model of a job file. Offsets are those of the file.
#[derive(Clone, Copy)]
pub enum ModelFault {
    // The record as such.
    Record(RecordFault),
    // A field out of its range, at the field.
    Field(usize),
    // Not a name, at its first byte.
    BadName(usize),
    // A second fact, or a second act, of one name, at its first byte.
    SameName(usize),
    // A record that may not come again, at the record.
    TooOften(usize),
    // A record that never came, at the end of the file.
    Missing(usize),
    // An act that is allowed in a state and has no reaction there.
    Stuck { act: u8, state: u32 },
    // The layer over the lowest lock.
    Layer(LayerFault),
    // No memory for what the file says: no fault of the file.
    Memory,
}

impl From<RecordFault> for ModelFault {
    ghost from_gives = { λ e r. r ≡ Record e };

    fn from(e: RecordFault) -> ModelFault {
        ModelFault::Record(e)
    }
}

impl From<AllocError> for ModelFault {
    ghost from_gives = { λ _ r. r ≡ Memory };

    fn from(_e: AllocError) -> ModelFault {
        ModelFault::Memory
    }
}

impl From<stuck::Stuck> for ModelFault {
    ghost from_gives = { λ e r. r ≡ Stuck e.act e.state };

    fn from(e: stuck::Stuck) -> ModelFault {
        ModelFault::Stuck {
            act: e.act,
            state: e.state,
        }
    }
}

impl From<LayerFault> for ModelFault {
    ghost from_gives = { λ e r. r ≡ Layer e };

    fn from(e: LayerFault) -> ModelFault {
        ModelFault::Layer(e)
    }
}

impl fmt::Display for ModelFault {
    ghost output = { λ f. Some (model_words f) };

    fn fmt<W: fmt::Write>(&self, f: &mut fmt::Formatter<W>) -> fmt::Result {
        match self {
            ModelFault::Record(inner) => write!(f, "{inner}"),
            ModelFault::Field(_) => f.write_str("the field is out of its range"),
            ModelFault::BadName(_) => f.write_str("this is not a name"),
            ModelFault::SameName(_) => f.write_str("the name stands there twice"),
            ModelFault::TooOften(_) => f.write_str("the record is there once too often"),
            ModelFault::Missing(_) => f.write_str("a record is missing"),
            ModelFault::Stuck { .. } => f.write_str(
                "an act is allowed in a state and has no reaction there",
            ),
            ModelFault::Layer(inner) => write!(f, "{inner}"),
            ModelFault::Memory => f.write_str("there is no memory for what the file says"),
        }
    }
}
