// The model of a job file: what its records say of a lock, taken one by one, and the lock that they make.
#![tactic(auto)]

pub mod draft;
pub mod fault;
mod low;
pub mod model;
