use locks::marks::Marks;
use pile::pile::Pile;
use words::names::Names;

// What a job file says: its lock, the names of facts and acts, the marks and the allowance of the layer, and the routine's text.
#[derive(Drop)]
pub struct Model<'a> {
    pub lock: Pile,
    pub facts: Names,
    pub acts: Names,
    pub marks: Marks,
    pub most: u8,
    pub text: &'a [u8],
}
