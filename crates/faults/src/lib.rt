// Why a job file is refused, whole: a fault of its length, its model, its text or its routine, with its number, layer, place and line.
#![tactic(auto)]

pub mod fault;
