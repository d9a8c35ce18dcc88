ghost use Rattle.std.specs.Prelude.{◌≡◌};
ghost use Rattle.text.specs.declared.fault.TextFault.TheVariants.{Word, Memory};

use tree::tree::growing::Unadded;

mod telling;
mod wording;

// Why a word is refused wherever it stands: what stands at the offset is no word of any routine.
#[derive(Clone, Copy)]
pub enum WordFault {
    Strange(usize),
}

// Why a text is refused: a word that is none, a word not of the grammar, a name that is not known, a limit passed. Or memory is wanting.
#[derive(Clone, Copy)]
pub enum TextFault {
    Word(WordFault),
    Misplaced(usize),
    Unknown(usize),
    OverLimit(usize),
    Memory,
}

impl From<WordFault> for TextFault {
    ghost from_gives = { λ e r. r ≡ Word e };

    fn from(e: WordFault) -> TextFault {
        TextFault::Word(e)
    }
}

impl From<Unadded> for TextFault {
    ghost from_gives = { λ _ r. r ≡ Memory };

    fn from(_e: Unadded) -> TextFault {
        TextFault::Memory
    }
}
