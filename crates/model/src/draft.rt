use items::item::Header;
use locks::marks::Marks;
use lowest::lowest::Lowest;
use words::names::Names;

mod closing;
mod taking;

// That it stands for what was said is a relation in the contracts, and no view: the tables forget the order of the records.
// What the records of a file have said so far: the head, the group of the last record, the names,
// the lowest lock, how many moves it has, and what is said of its layer and of the routine.
#[derive(Drop)]
pub struct Draft<'a> {
    head: Header,
    // A number, as `Kind::group` gives it.
    group: u8,
    facts: Names,
    acts: Names,
    lowest: Lowest,
    moves: usize,
    marks: Marks,
    allowance: Option<u8>,
    text: Option<&'a [u8]>,
}

// What a record that was taken leaves: the bytes behind it, and the routine's text if it was one.
#[derive(Clone, Copy)]
pub struct Taken<'a> {
    pub rest: &'a [u8],
    pub text: Option<&'a [u8]>,
}
