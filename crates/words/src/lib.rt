// Words and names: what names in a job file and words of a routine have in common.
#![tactic(auto)]

ghost use Rattle.std.specs.Prelude.{◌≡◌};
ghost use Rattle.words.specs.Names.{same_word, is_reserved, is_letter, is_name_byte, all_name_bytes, name_shaped, is_name};

pub mod names;

// The longest name.
pub const MOST_LETTERS: usize = 24;

// The words of the language of routines, which are no names.
const RESERVED: [&[u8]; 13] = [
    b"if", b"then", b"else", b"fi", b"while", b"do", b"od", b"nil", b"and", b"or", b"not", b"true",
    b"false",
];

// Whether two words are the same.
pub fn same_word(one: &[u8], other: &[u8]) -> bool
    ensures { result ≡ same_word one.now other.now }
{
    one == other
}

// Whether a word belongs to the language of routines.
pub fn is_reserved(word: &[u8]) -> bool
    ensures { result ≡ is_reserved word.now }
{
    RESERVED.iter().any(|reserved| same_word(word, reserved))
}

// Whether the byte is an ASCII letter.
pub fn is_letter(b: u8) -> bool
    ensures { result ≡ is_letter b }
{
    b.is_ascii_alphabetic()
}

// Whether the byte may stand inside a name.
pub fn is_name_byte(b: u8) -> bool
    ensures { result ≡ is_name_byte b }
{
    b.is_ascii_alphanumeric() || b == b'_'
}

fn all_name_bytes(word: &[u8]) -> bool
    ensures { result ≡ all_name_bytes word.now }
{
    word.iter().all(|b| is_name_byte(*b))
}

// Whether the bytes are a name: a letter, then letters, digits or underscores, 1 to 24 in all, and no reserved word.
pub fn is_name(word: &[u8]) -> bool
    ensures { result ≡ is_name word.now }
{
    is_name_shaped(word) && all_name_bytes(word) && !is_reserved(word)
}

// Whether the word begins with a letter and is no longer than a name.
pub fn is_name_shaped(word: &[u8]) -> bool
    ensures { result ≡ name_shaped word.now }
{
    match word {
        [first, ..] => is_letter(*first) && word.len() <= MOST_LETTERS,
        [] => false,
    }
}
