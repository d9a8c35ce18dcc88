use locks::marks::Marks;
use pile::pile::Pile;
use routine::routine::Routine;
use words::names::Names;

mod holding;
mod reading;
mod telling;

pub use telling::line_of;

// A job file that was read: its lock, the names of facts and acts, the marks and the allowance, the routine's text, and the routine.
#[derive(Drop)]
pub struct JobFile {
    lock: Pile,
    facts: Names,
    acts: Names,
    marks: Marks,
    most: u8,
    text: Vec<u8>,
    routine: Routine,
}
