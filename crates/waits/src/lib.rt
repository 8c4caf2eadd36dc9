// What a list of objects asks and what it takes.
#![tactic(auto)]

pub mod lists;
pub mod object;
