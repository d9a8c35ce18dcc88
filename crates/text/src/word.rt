// A word that stands behind a part: it joins parts, or closes one.
#[derive(Clone, Copy, PartialEq, Eq)]
pub enum Mark {
    Close,
    CloseSquare,
    Semicolon,
    Bar,
    Star,
    Then,
    Else,
    Fi,
    Do,
    Od,
    And,
    Or,
}

// A word of a text. A name is the very part of the text that holds it.
#[derive(Clone, Copy, PartialEq, Eq)]
pub enum Word<'a> {
    Name(&'a [u8]),
    Open,
    OpenSquare,
    If,
    While,
    Nil,
    Not,
    True,
    False,
    Behind(Mark),
    Strange,
}

// A word beside its offset in the text.
#[derive(Clone, Copy)]
pub struct Token<'a> {
    pub word: Word<'a>,
    pub at: usize,
}
