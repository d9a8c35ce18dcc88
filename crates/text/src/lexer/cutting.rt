ghost use Rattle.std.specs.Prelude.{◌≡◌, ◌<◌, ◌≤◌, true, ◌∷◌, length, drop, MatchOption, slice_index};
ghost use Rattle.std.proofs.Math.Option.{none, some};
ghost use Rattle.std.specs.Iterator.{YieldsFirstBy, item_count};
ghost use Rattle.std.specs.List.{between};
ghost use Rattle.golog.specs.Words.{byte_kind, cut, token, tokens, beside, reserved, run_word};
ghost use Rattle.golog.specs.Words.Cutting.{gap, comment};
ghost use Rattle.golog.specs.Words.Byte.{part};
ghost use Rattle.text.specs.Said.{said, said_kind, word_byte};
ghost use Rattle.text.specs.Left.{said_token, left};

use super::Words;
use crate::word::{Mark, Token, Word};
use words::{is_name_byte, is_name_shaped, same_word};

// The words that no name may be.
const RESERVED: [(&[u8], Word<'static>); 13] = [
    (b"if", Word::If),
    (b"then", Word::Behind(Mark::Then)),
    (b"else", Word::Behind(Mark::Else)),
    (b"fi", Word::Behind(Mark::Fi)),
    (b"while", Word::While),
    (b"do", Word::Behind(Mark::Do)),
    (b"od", Word::Behind(Mark::Od)),
    (b"nil", Word::Nil),
    (b"and", Word::Behind(Mark::And)),
    (b"or", Word::Behind(Mark::Or)),
    (b"not", Word::Not),
    (b"true", Word::True),
    (b"false", Word::False),
];

// What a byte is: blank, the beginning of a comment, part of a run, or a word of its own.
#[derive(Clone, Copy)]
enum Kind {
    Blank,
    Hash,
    Part,
    Lone(Word<'static>),
}

impl From<u8> for Kind {
    ghost from_gives = { λ b k. said_kind k ≡ byte_kind b };

    fn from(b: u8) -> Kind {
        match b as char {
            ' ' | '\t' | '\r' | '\n' => Kind::Blank,
            '#' => Kind::Hash,
            '(' => Kind::Lone(Word::Open),
            ')' => Kind::Lone(Word::Behind(Mark::Close)),
            '[' => Kind::Lone(Word::OpenSquare),
            ']' => Kind::Lone(Word::Behind(Mark::CloseSquare)),
            ';' => Kind::Lone(Word::Behind(Mark::Semicolon)),
            '|' => Kind::Lone(Word::Behind(Mark::Bar)),
            '*' => Kind::Lone(Word::Behind(Mark::Star)),
            _ if is_name_byte(b) => Kind::Part,
            _ => Kind::Lone(Word::Strange),
        }
    }
}

// Where a comment ends: at LF, or with the text.
fn comment_end(text: &[u8], from: usize) -> usize
    requires { from ≤ length text.now }
    ensures within { (from ≤ result) × (result ≤ length text.now) }
    ensures skips { cut comment from (drop from text.now) ≡ cut gap result (drop result text.now) }
{
    let comment = text[from..].iter().take_while(|&&b| b != b'\n');
    from + comment.count()
}

// Where the next word begins, or the text's end.
fn word_start(text: &[u8], from: usize) -> usize
    requires { from ≤ length text.now }
    ensures within { (from ≤ result) × (result ≤ length text.now) }
    ensures skips { cut gap from (drop from text.now) ≡ cut gap result (drop result text.now) }
    ensures word { result < length text.now → word_byte (byte_kind (slice_index text.now result)) ≡ true }
{
    // Not an iterator chain: a comment is passed over in one stride, so the bytes are not looked at one by one.
    let mut at = from;
    while let Some(&b) = text.get(at) {
        match Kind::from(b) {
            Kind::Blank => at += 1,
            Kind::Hash => at = comment_end(text, at + 1),
            Kind::Part | Kind::Lone(_) => break,
        }
    }
    at
}

// Where the run that begins at the offset ends.
fn run_end(text: &[u8], start: usize) -> usize
    requires start_in_bounds { start < length text.now }
    requires start_value { byte_kind (slice_index text.now start) ≡ part }
    ensures within { (start < result) × (result ≤ length text.now) }
    ensures run { cut gap start (drop start text.now) ≡ token start (run_word (between start result text.now)) ∷ cut gap result (drop result text.now) }
{
    let run = text[start..].iter().take_while(|&&b| is_name_byte(b));
    start + run.count()
}

// The word that a run is.
fn run_word(run: &[u8]) -> Word<'_>
    ensures { said result ≡ run_word run.now }
{
    match reserved(run) {
        Some(word) => word,
        None if is_name_shaped(run) => Word::Name(run),
        None => Word::Strange,
    }
}

// The word that a run is if it is reserved.
fn reserved(run: &[u8]) -> Option<Word<'static>>
    ensures { MatchOption result (beside reserved run.now ≡ none) (λ w. beside reserved run.now ≡ some (said w)) }
{
    RESERVED
        .iter()
        .find(|(letters, _)| same_word(letters, run))
        .map(|(_, word)| *word)
}

impl<'a> Words<'a> {
    // All words of a text.
    pub fn new(text: &'a [u8]) -> Words<'a>
        ensures { left result ≡ tokens text.now }
    {
        Words { text, at: 0 }
    }
}

impl<'a> Iterator for Words<'a> {
    type Item = Token<'a>;

    ghost next_gives = { YieldsFirstBy said_token left };

    ghost remaining = { item_count left };

    // The next word, if there is one.
    fn next(&mut self) -> Option<Token<'a>> {
        let text = self.text;
        let at = word_start(text, self.at);
        if at == text.len() {
            return None;
        }
        match Kind::from(text[at]) {
            Kind::Lone(word) => {
                self.at = at + 1;
                Some(Token { word, at })
            }
            Kind::Blank | Kind::Hash | Kind::Part => {
                let end = run_end(text, at);
                self.at = end;
                Some(Token {
                    word: run_word(&text[at..end]),
                    at,
                })
            }
        }
    }
}
