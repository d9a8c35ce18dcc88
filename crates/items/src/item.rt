ghost use Rattle.std.specs.Prelude.{◌≡◌, ℕ, ◌+◌, ◌<◌, ◌≤◌, true, false, length, MatchOption};
ghost use Rattle.std.specs.Option.{option_map};
ghost use Rattle.items.specs.Kinds.{fits_length};
ghost use Rattle.items.specs.Layout.{entry, header, word, said, kind_of_entry, text_in};

use super::kind::Kind;
use records::join;

// The head of a job file: the form of its lock, its counts, and its first state.
#[derive(Clone, Copy)]
pub struct Header {
    // The byte as it stands in the file: `head_field` tells one that names no form, as it tells a count out of range.
    pub form: u8,
    pub facts: u8,
    pub acts: u8,
    pub states: u16,
    pub first: u16,
}

// What one record says. Names and the routine are parts of the file.
#[derive(Clone, Copy)]
pub enum Item<'a> {
    Head(Header),
    Fact(&'a [u8]),
    Act(&'a [u8]),
    Rule {
        act: u8,
        need: u16,
        lack: u16,
    },
    Change {
        act: u8,
        reaction: u8,
        need: u16,
        lack: u16,
        set: u16,
        clear: u16,
    },
    State(u16),
    Move {
        state: u16,
        act: u8,
        reaction: u8,
        after: u16,
    },
    Mark {
        act: u8,
        reaction: u8,
    },
    Allowance(u8),
    Routine(&'a [u8]),
}

fn word_at(body: &[u8], i: usize) -> u16
    requires { i + 1 < length body.now }
    ensures { result ≡ word body.now i }
{
    join(body[i], body[i + 1])
}

fn header_in(body: &[u8]) -> Header
    requires { length body.now ≡ 7 }
    ensures { result ≡ header body.now }
{
    Header {
        form: body[0],
        facts: body[1],
        acts: body[2],
        states: word_at(body, 3),
        first: word_at(body, 5),
    }
}

fn change_in(body: &[u8]) -> Item<'_>
    requires { length body.now ≡ 10 }
    ensures { said result ≡ entry Kind.Change body.now }
{
    Item::Change {
        act: body[0],
        reaction: body[1],
        need: word_at(body, 2),
        lack: word_at(body, 4),
        set: word_at(body, 6),
        clear: word_at(body, 8),
    }
}

impl Item<'_> {
    // What a record of this kind says; `None` where its body has the wrong length.
    pub fn of(kind: Kind, body: &[u8]) -> Option<Item<'_>>
        ensures { MatchOption result (fits_length kind (length body.now) ≡ false) (λ i. (fits_length kind (length body.now) ≡ true) × (said i ≡ entry kind body.now)) }
    {
        if !kind.fits_length(body.len()) {
            return None;
        }
        Some(match kind {
            Kind::Head => Item::Head(header_in(body)),
            Kind::Fact => Item::Fact(body),
            Kind::Act => Item::Act(body),
            Kind::Rule => Item::Rule {
                act: body[0],
                need: word_at(body, 1),
                lack: word_at(body, 3),
            },
            Kind::Change => change_in(body),
            Kind::State => Item::State(word_at(body, 0)),
            Kind::Move => Item::Move {
                state: word_at(body, 0),
                act: body[2],
                reaction: body[3],
                after: word_at(body, 4),
            },
            Kind::Mark => Item::Mark {
                act: body[0],
                reaction: body[1],
            },
            Kind::Allowance => Item::Allowance(body[0]),
            Kind::Routine => Item::Routine(body),
        })
    }

    pub fn kind(self) -> Kind
        ensures { result ≡ kind_of_entry (said self.entry) }
    {
        match self {
            Item::Head(_) => Kind::Head,
            Item::Fact(_) => Kind::Fact,
            Item::Act(_) => Kind::Act,
            Item::Rule { .. } => Kind::Rule,
            Item::Change { .. } => Kind::Change,
            Item::State(_) => Kind::State,
            Item::Move { .. } => Kind::Move,
            Item::Mark { .. } => Kind::Mark,
            Item::Allowance(_) => Kind::Allowance,
            Item::Routine(_) => Kind::Routine,
        }
    }
}

impl<'a> Item<'a> {
    // The text of a routine.
    pub fn text(self) -> Option<&'a [u8]>
        ensures { option_map (λ x. x.now) result ≡ text_in (said self.entry) }
    {
        match self {
            Item::Routine(text) => Some(text),
            _ => None,
        }
    }
}
