ghost use Rattle.std.specs.Prelude.{Some};
ghost use Rattle.text.specs.Wording.{text_words};

use super::TextFault;
use std::fmt;

impl fmt::Display for TextFault {
    ghost output = { λ f. Some (text_words f) };

    fn fmt<W: fmt::Write>(&self, f: &mut fmt::Formatter<W>) -> fmt::Result {
        f.write_str(match self {
            TextFault::Word(_) => "this is no word of a routine",
            TextFault::Misplaced(_) => "the word does not fit there, or the text ends too soon",
            TextFault::Unknown(_) => "no act, or no fact, has this name",
            TextFault::OverLimit(_) => "too many words, too many acts, or too deep",
            TextFault::Memory => "there is no memory for what the text says",
        })
    }
}
