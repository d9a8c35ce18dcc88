// The live lowest lock, and the pile that a file describes: one allowance over it.
#![tactic(auto)]

pub mod live;
pub mod pile;
#[cfg(test)]
mod tests;
