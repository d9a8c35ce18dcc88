ghost use Rattle.std.specs.Prelude.{◌≡◌, ◌==◌, IfOk, Some, string_bytes};
ghost use Rattle.faults.specs.Faults.{record_outcome, layer_outcome, model_outcome, fault_outcome, fault_number, fault_layer, fault_place, line_of, refusal_line};

use super::FileFault;
use locks::allowance::LayerFault;
use model::fault::ModelFault;
use records::RecordFault;
use routine::fault::RoutineFault;
use std::alloc::{AllocError, Global};
use std::fmt;
use text::fault::TextFault;

// What a refusal tells: the number of its fault, the layer that found it, and where.
#[derive(Clone, Copy, PartialEq, Eq)]
pub struct Outcome {
    pub number: u8,
    pub layer: u8,
    pub place: u64,
}

impl fmt::Display for Outcome {
    ghost output = { λ o. Some (line_of o.number o.layer o.place) };

    fn fmt<W: fmt::Write>(&self, f: &mut fmt::Formatter<W>) -> fmt::Result {
        let number = self.number;
        let layer = self.layer;
        let place = self.place;
        write!(f, "refused {number} layer {layer} place {place}")
    }
}

fn of_record(fault: RecordFault) -> Outcome
    ensures { result ≡ record_outcome fault }
{
    let (number, at) = match fault {
        RecordFault::Cut(at) => (1, at),
        RecordFault::NoHead(at)
        | RecordFault::UnknownKind(at)
        | RecordFault::OtherForm(at)
        | RecordFault::OutOfOrder(at)
        | RecordFault::WrongLength(at) => (2, at),
    };
    Outcome {
        number,
        layer: 1,
        place: at as u64,
    }
}

fn of_layer(fault: LayerFault) -> Outcome
    ensures { result ≡ layer_outcome fault }
{
    let (number, place) = match fault {
        LayerFault::Allowance(most) => (3, u64::from(most)),
        LayerFault::States(states) => (10, u64::from(states)),
    };
    Outcome {
        number,
        layer: 2,
        place,
    }
}

fn of_model(fault: ModelFault) -> Outcome
    ensures { result ≡ model_outcome fault }
{
    let (number, place) = match fault {
        ModelFault::Record(inner) => return of_record(inner),
        ModelFault::Layer(inner) => return of_layer(inner),
        ModelFault::Field(at) => (3, at as u64),
        ModelFault::BadName(at) | ModelFault::SameName(at) => (4, at as u64),
        ModelFault::TooOften(at) | ModelFault::Missing(at) => (5, at as u64),
        ModelFault::Stuck { act, state } => (6, u64::from(act) * 4096 + u64::from(state)),
        ModelFault::Memory => {
            return Outcome {
                number: 0,
                layer: 0,
                place: 0,
            };
        }
    };
    Outcome {
        number,
        layer: 2,
        place,
    }
}

impl FileFault {
    // A fault that holds another tells what that one tells; want of memory tells nothing but 0.
    pub fn outcome(self) -> Outcome
        ensures { result ≡ fault_outcome self }
    {
        match self {
            FileFault::TooLong(most) => Outcome {
                number: 3,
                layer: 2,
                place: most as u64,
            },
            FileFault::Model(inner) => of_model(inner),
            FileFault::Text(inner) => Outcome {
                number: inner.number(),
                layer: inner.layer(),
                place: inner.place() as u64,
            },
            FileFault::Routine(inner) => Outcome {
                number: inner.number(),
                layer: inner.layer(),
                place: u64::from(inner.place()),
            },
        }
    }

    pub fn number(self) -> u8
        ensures { result ≡ fault_number self }
    {
        self.outcome().number
    }

    pub fn layer(self) -> u8
        ensures { result ≡ fault_layer self }
    {
        self.outcome().layer
    }

    pub fn place(self) -> u64
        ensures { result ≡ fault_place self }
    {
        self.outcome().place
    }

    // Whether memory is wanting, which is no fault of the file.
    pub fn is_memory(self) -> bool
        ensures { result ≡ (fault_number self == 0) }
    {
        matches!(
            self,
            FileFault::Model(ModelFault::Memory)
                | FileFault::Text(TextFault::Memory)
                | FileFault::Routine(RoutineFault::Memory)
        )
    }

    // The line that tells the refusal.
    pub fn line(self, heap: Global) -> Result<String, AllocError>
        ensures { IfOk result (λ s. string_bytes s ≡ refusal_line self) }
    {
        let outcome = self.outcome();
        format!(in heap; "{outcome}")
    }
}
