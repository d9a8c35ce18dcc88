// Why a lock takes no rule, change or move: a number is out of its range, or there is one already.
#[derive(Clone, Copy)]
pub enum Refused {
    Range,
    Taken,
}
