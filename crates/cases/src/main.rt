// Tries the reader on job files that differ from a good one in one place, and prints the line of each.
#![tactic(auto)]

use intake::LONGEST;
use jobfile::jobfile::line_of;
use std::alloc::{AllocError, Global};

// The small lock with one slip borne, and its routine.
const SMALL: [u8; 154] = [
    7, 0, 1, 0, 1, 2, 2, 4, 0, 0, 0, 5, 0, 2, 0, 119, 111, 117, 110, 100, 4, 0, 2, 0, 115, 104,
    117, 116, 4, 0, 3, 0, 119, 105, 110, 100, 5, 0, 3, 0, 99, 108, 111, 115, 101, 5, 0, 16, 0, 0,
    0, 0, 2, 0, 5, 0, 16, 0, 1, 0, 0, 2, 0, 10, 0, 17, 0, 0, 0, 0, 0, 0, 0, 1, 0, 0, 0, 10, 0, 17,
    0, 0, 1, 0, 0, 0, 0, 0, 0, 0, 0, 10, 0, 17, 0, 1, 0, 0, 0, 0, 0, 2, 0, 0, 0, 2, 0, 49, 0, 0, 1,
    1, 0, 50, 0, 1, 34, 0, 64, 0, 119, 104, 105, 108, 101, 32, 110, 111, 116, 32, 119, 111, 117,
    110, 100, 32, 100, 111, 32, 119, 105, 110, 100, 32, 111, 100, 32, 59, 32, 99, 108, 111, 115,
    101,
];

// Three listed states with two moves, which stand before the states, and a routine.
const LISTED: [u8; 80] = [
    7, 0, 1, 0, 2, 2, 1, 3, 0, 1, 0, 4, 0, 2, 0, 111, 112, 101, 110, 3, 0, 2, 0, 115, 101, 116, 4,
    0, 3, 0, 116, 117, 114, 110, 6, 0, 33, 0, 0, 0, 0, 0, 1, 0, 6, 0, 33, 0, 1, 0, 0, 3, 2, 0, 2,
    0, 32, 0, 0, 0, 2, 0, 32, 0, 1, 0, 2, 0, 32, 0, 3, 0, 4, 0, 64, 0, 116, 117, 114, 110,
];

// How a file differs from the good one.
#[derive(Clone, Copy)]
enum Edit {
    Keep,
    Cut(usize),
    Put(usize, &'static [u8]),
    Behind(&'static [u8]),
}

// What is tried, by name.
const EDITS: [(&str, Edit); 43] = [
    ("the file as it is", Edit::Keep),
    ("no file at all", Edit::Cut(0)),
    ("cut in the head's prefix", Edit::Cut(3)),
    ("cut in the head's body", Edit::Cut(10)),
    ("the head alone", Edit::Cut(11)),
    ("cut in the last record", Edit::Cut(153)),
    ("no routine", Edit::Cut(116)),
    ("three bytes behind the routine", Edit::Behind(&[0, 0, 2])),
    ("the first record is a fact", Edit::Put(2, &[2])),
    ("a head of six bytes", Edit::Put(0, &[6])),
    ("form 0", Edit::Put(4, &[0])),
    ("form 3", Edit::Put(4, &[3])),
    ("no facts", Edit::Put(5, &[0])),
    ("13 facts", Edit::Put(5, &[13])),
    ("no acts", Edit::Put(6, &[0])),
    ("32 acts", Edit::Put(6, &[32])),
    ("31 acts, 29 of them missing", Edit::Put(6, &[31])),
    ("5 states in form 1", Edit::Put(7, &[5])),
    ("first state 4", Edit::Put(9, &[4])),
    ("first state 3", Edit::Put(9, &[3])),
    ("form 2 with rules", Edit::Put(4, &[2])),
    ("an unknown kind", Edit::Put(47, &[0x12])),
    ("a name that begins with a digit", Edit::Put(15, &[0x31])),
    (
        "a name that is a reserved word",
        Edit::Put(32, &[0x65, 0x6c, 0x73, 0x65]),
    ),
    (
        "two facts of one name",
        Edit::Put(20, &[5, 0, 2, 0, 0x77, 0x6f, 0x75, 0x6e, 0x64]),
    ),
    ("a rule of act 2", Edit::Put(49, &[2])),
    ("a rule that needs fact 2", Edit::Put(50, &[4])),
    ("a rule that lacks fact 2", Edit::Put(52, &[4])),
    ("a rule of four bytes", Edit::Put(45, &[4])),
    ("two rules of one act", Edit::Put(58, &[0])),
    ("a change of reaction 8", Edit::Put(68, &[8])),
    ("a change that sets fact 15", Edit::Put(74, &[0x80])),
    ("a change that clears fact 2", Edit::Put(75, &[4])),
    ("two changes of one act and reaction", Edit::Put(82, &[0])),
    (
        "a change of the other act: wind without reaction 1",
        Edit::Put(81, &[1]),
    ),
    ("close without a reaction", Edit::Put(95, &[0, 2])),
    ("a mark of act 2", Edit::Put(109, &[2])),
    ("a mark of reaction 8", Edit::Put(110, &[8])),
    ("an allowance of 7", Edit::Put(115, &[7])),
    ("an allowance of 8", Edit::Put(115, &[8])),
    (
        "a mark behind the routine",
        Edit::Behind(&[2, 0, 0x31, 0, 0, 0]),
    ),
    ("a second routine", Edit::Behind(&[0, 0, 0x40, 0])),
    (
        "a head behind the routine",
        Edit::Behind(&[7, 0, 1, 0, 1, 2, 2, 4, 0, 0, 0]),
    ),
];

// The same for the file of listed states.
const LISTED_EDITS: [(&str, Edit); 13] = [
    ("listed states: the file as it is", Edit::Keep),
    ("a move to state 3", Edit::Put(42, &[3])),
    ("a move from state 3", Edit::Put(38, &[3])),
    ("a move of act 1", Edit::Put(40, &[1])),
    ("a move of reaction 8", Edit::Put(41, &[8])),
    (
        "two moves of one state, act and reaction",
        Edit::Put(48, &[0, 0, 0, 0]),
    ),
    ("a state with fact 2", Edit::Put(70, &[4])),
    ("two states where three are said", Edit::Put(7, &[4])),
    ("three states where two are said", Edit::Put(7, &[2])),
    ("a state of three bytes", Edit::Put(66, &[3])),
    ("no states", Edit::Put(7, &[0])),
    ("1025 states", Edit::Put(7, &[1, 4])),
    ("form 1 with moves", Edit::Put(4, &[1, 2, 1, 4, 0])),
];

// A good file with the edit.
fn edited(heap: Global, good: &[u8], edit: &Edit) -> Result<Vec<u8>, AllocError> {
    let mut file = Vec::from_slice(heap, good)?;
    match edit {
        Edit::Keep => {}
        Edit::Cut(n) => file.truncate(*n),
        Edit::Put(at, bytes) => {
            // A loop over both and no copy of a slice: what would stand behind the file's end is left out.
            for (place, b) in file.iter_mut().skip(*at).zip(bytes.iter()) {
                *place = *b;
            }
        }
        Edit::Behind(bytes) => file.extend_from_slice(bytes)?,
    }
    Ok(file)
}

fn try_edits(rt: &HostRuntime, good: &[u8], edits: &[(&str, Edit)]) -> anyhow::Result<()> {
    let heap = rt.alloc();
    for (what, edit) in edits.iter() {
        let file = edited(heap, good, edit)?;
        println!(rt; "{what}: {}", line_of(heap, file.as_slice(), LONGEST)?)?;
    }
    Ok(())
}

// Files of the greatest length that is taken, and of one byte more.
fn try_lengths(rt: &HostRuntime) -> anyhow::Result<()> {
    let heap = rt.alloc();
    for n in [LONGEST, LONGEST + 1] {
        let file = vec![in heap; 0u8; n]?;
        println!(rt;
            "{n} bytes of 0: {}",
            line_of(heap, file.as_slice(), LONGEST)?
        )?;
    }
    Ok(())
}

fn main(rt: HostRuntime) -> anyhow::Result<()> {
    try_edits(&rt, &SMALL, &EDITS)?;
    try_edits(&rt, &LISTED, &LISTED_EDITS)?;
    try_lengths(&rt)
}
