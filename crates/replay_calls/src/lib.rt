// The calls of stored lists, by the exported functions.
#![tactic(auto)]

pub mod named;
