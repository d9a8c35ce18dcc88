ghost use Rattle.std.specs.Prelude.{◌≡◌};
ghost use Rattle.text.specs.Faults.{fault_of};

use super::{TextFault, WordFault};

impl TextFault {
    // The number of the fault; 0 where memory is wanting.
    pub fn number(self) -> u8
        ensures { result ≡ (fault_of self).number }
    {
        match self {
            TextFault::Word(_) | TextFault::Misplaced(_) => 7,
            TextFault::Unknown(_) => 8,
            TextFault::OverLimit(_) => 9,
            TextFault::Memory => 0,
        }
    }

    // The layer of the fault: that of texts.
    pub fn layer(self) -> u8
        ensures { result ≡ (fault_of self).layer }
    {
        match self {
            TextFault::Memory => 0,
            _ => 3,
        }
    }

    // The offset of the word, or the text's length.
    pub fn place(self) -> usize
        ensures { result ≡ (fault_of self).place }
    {
        match self {
            TextFault::Word(WordFault::Strange(at)) => at,
            TextFault::Misplaced(at) | TextFault::Unknown(at) | TextFault::OverLimit(at) => at,
            TextFault::Memory => 0,
        }
    }
}
