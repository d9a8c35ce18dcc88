// Conditions and programs in tables: each part stands below the whole.
#![tactic(auto)]

pub mod node;
pub mod tree;
