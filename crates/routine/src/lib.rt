// Routines: a program's points, which may stop, which come next, and that it has one way.
#![tactic(auto)]

mod condition;
mod entry;
pub mod fault;
pub mod routine;
mod row;
mod set;
mod starts;
mod tables;
