// Locks: the interface that everything above is generic over, and the layers that make a lock of a lock.
#![tactic(auto)]

pub mod allowance;
pub mod facts;
pub mod live;
pub mod lock;
pub mod marks;
pub mod stuck;
