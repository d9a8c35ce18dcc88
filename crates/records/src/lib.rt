// Records: what a job file is made of. This layer knows of no kind.
#![tactic(auto)]

ghost use Rattle.std.specs.Prelude.{◌≡◌, ℕ, ◌+◌, ◌*◌, ◌<◌, ◌≤◌, Some, length, MatchResult};
ghost use Rattle.records.specs.Split.{front, two_bytes};
ghost use Rattle.records.specs.Split.Front.{cut, whole};
ghost use Rattle.records.specs.Wording.{record_words};

use std::fmt;

// What is wrong with a record as such, with the offset at which the record begins.
#[derive(Clone, Copy)]
pub enum RecordFault {
    // Fewer bytes are left than its length asks for.
    Cut(usize),
    // The file's first record is no head.
    NoHead(usize),
    // No record of a job file has this kind.
    UnknownKind(usize),
    // The kind belongs to the other form of lock.
    OtherForm(usize),
    // A record of a later group came before it.
    OutOfOrder(usize),
    // The kind has another length.
    WrongLength(usize),
}

impl fmt::Display for RecordFault {
    ghost output = { λ f. Some (record_words f) };

    fn fmt<W: fmt::Write>(&self, f: &mut fmt::Formatter<W>) -> fmt::Result {
        f.write_str(match self {
            RecordFault::Cut(_) => "the record is cut short",
            RecordFault::NoHead(_) => "the first record is no head",
            RecordFault::UnknownKind(_) => "no record has this kind",
            RecordFault::OtherForm(_) => "the record is of the other form of lock",
            RecordFault::OutOfOrder(_) => "the record stands behind a later group",
            RecordFault::WrongLength(_) => "the record has the wrong length",
        })
    }
}

// A record with its offset, and the bytes behind it, all as parts of the file.
#[derive(Clone, Copy)]
pub struct Record<'a> {
    pub at: usize,
    pub kind: u16,
    pub body: &'a [u8],
    pub rest: &'a [u8],
}

// A number of two bytes, the low byte first.
pub fn join(low: u8, high: u8) -> u16
    ensures { result ≡ two_bytes low high }
{
    u16::from_le_bytes([low, high])
}

// The record at the front of the bytes, which stand at this offset of the file.
pub fn split(bytes: &[u8], at: usize) -> Result<Record<'_>, RecordFault>
    ensures { MatchResult result (λ p. (p.at ≡ at) × (front bytes.now ≡ whole p.kind p.body.now p.rest.now)) (λ f. (f ≡ RecordFault.Cut at) × (front bytes.now ≡ cut)) }
{
    let [l0, l1, k0, k1, rest @ ..] = bytes else {
        return Err(RecordFault::Cut(at));
    };
    let n = join(*l0, *l1) as usize;
    if rest.len() < n {
        return Err(RecordFault::Cut(at));
    }
    let (body, rest) = rest.split_at(n);
    let kind = join(*k0, *k1);
    Ok(Record {
        at,
        kind,
        body,
        rest,
    })
}
