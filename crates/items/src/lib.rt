// Items: what the records of a job file say, by kind, where they may stand, and which numbers their fields may have.
#![tactic(auto)]

pub mod item;
pub mod kind;
pub mod place;
pub mod range;
