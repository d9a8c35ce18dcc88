// The two lowest locks, and the one of them that stands at the bottom of a pile.
#![tactic(auto)]

mod counts;
pub mod facts;
pub mod listed;
pub mod lowest;
pub mod refused;
mod table;
pub mod unmade;
