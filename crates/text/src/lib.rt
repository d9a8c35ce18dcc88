// The text of a routine: its words, and the program that they are.
#![tactic(auto)]

pub mod fault;
pub mod lexer;
pub mod parsed;
mod reader;
pub mod word;
