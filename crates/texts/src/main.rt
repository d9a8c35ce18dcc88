// Tries the reader on routines for the small lock, and prints the line of each. The file that is named holds the lock, up to its routine.
#![tactic(auto)]

use intake::take_in;
use jobfile::jobfile::line_of;
use std::alloc::{AllocError, Global};
use std::env;

// A text: as it stands, or a beginning, a part so many times, and an end.
enum Text {
    Plain(&'static str),
    Repeated(&'static str, &'static str, usize, &'static str),
}

// Texts that are read.
const GOOD: [(&str, Text); 9] = [
    ("nil", Text::Plain("nil")),
    ("a repeat", Text::Plain("( wind ) *")),
    (
        "a loop, and then an act",
        Text::Plain("while not wound do wind od ; close"),
    ),
    (
        "two next points that never go on together",
        Text::Plain("wind ; [wound] | wind ; [not wound]"),
    ),
    (
        "a comment without a line's end",
        Text::Plain("wind # and no more"),
    ),
    (
        "brackets of both sorts",
        Text::Plain("if ( not wound or shut ) and true then [shut] else ( wind ) fi"),
    ),
    ("63 act words", Text::Repeated("", "wind;", 62, "wind")),
    ("512 words", Text::Repeated("", "nil;", 255, "nil*")),
    ("32 levels", Text::Repeated("[", "not ", 31, "wound]")),
];

// Texts that are refused.
const BAD: [(&str, Text); 19] = [
    ("no text", Text::Plain("")),
    ("a comment alone", Text::Plain(" # wind")),
    ("two acts without a sign", Text::Plain("wind wind")),
    ("a byte that is no word", Text::Plain("wind ; $")),
    (
        "a name of 25 letters",
        Text::Plain("abcdefghijklmnopqrstuvwxy"),
    ),
    (
        "a name that is not listed",
        Text::Plain("abcdefghijklmnopqrstuvwx"),
    ),
    ("a fact in an act's place", Text::Plain("wind ; wound")),
    ("an act in a fact's place", Text::Plain("[wind]")),
    ("a text that breaks off", Text::Plain("( wind")),
    ("an unknown name in one", Text::Plain("( open")),
    (
        "an if without an else",
        Text::Plain("if wound then close fi"),
    ),
    ("empty brackets", Text::Plain("wind ; ( )")),
    ("64 act words", Text::Repeated("", "wind;", 63, "wind")),
    (
        "an unknown 64th act word",
        Text::Repeated("", "wind;", 63, "open"),
    ),
    ("513 words", Text::Repeated("", "nil;", 255, "nil**")),
    (
        "a 513th word that does not fit",
        Text::Repeated("", "nil;", 256, ";"),
    ),
    ("33 levels", Text::Repeated("[", "not ", 32, "wound]")),
    ("two ways", Text::Plain("wind ; close | wind ; close")),
    (
        "two ways at a point that is never reached",
        Text::Plain("[false] ; wind ; ( close | close )"),
    ),
];

fn spelt(heap: Global, text: &Text) -> Result<Vec<u8>, AllocError> {
    let mut bytes = Vec::new(heap);
    match text {
        Text::Plain(all) => bytes.extend_from_slice(all.as_bytes())?,
        Text::Repeated(start, part, times, end) => {
            bytes.extend_from_slice(start.as_bytes())?;
            // A loop and no chain: each part more may want memory.
            for _ in 0..*times {
                bytes.extend_from_slice(part.as_bytes())?;
            }
            bytes.extend_from_slice(end.as_bytes())?;
        }
    }
    Ok(bytes)
}

// The lock's records, and behind them the routine's.
fn file_of(heap: Global, model: &[u8], text: &[u8]) -> Result<Vec<u8>, AllocError> {
    let mut file = Vec::from_slice(heap, model)?;
    let length = (text.len() % 65_536) as u16;
    file.extend_from_slice(&length.to_le_bytes())?;
    file.extend_from_slice(&[0x40, 0])?;
    file.extend_from_slice(text)?;
    Ok(file)
}

fn try_texts(rt: &HostRuntime, model: &[u8], texts: &[(&str, Text)]) -> anyhow::Result<()> {
    let heap = rt.alloc();
    for (what, text) in texts.iter() {
        let bytes = spelt(heap, text)?;
        let file = file_of(heap, model, bytes.as_slice())?;
        println!(rt; "{what}: {}", line_of(heap, file.as_slice(), usize::MAX)?)?;
    }
    Ok(())
}

fn main(rt: HostRuntime) -> anyhow::Result<()> {
    let path = env::args(&rt)?.nth(1);
    let model = take_in(&rt, path.as_deref())?;
    try_texts(&rt, model.as_slice(), &GOOD)?;
    try_texts(&rt, model.as_slice(), &BAD)
}
