// The commands of a script, and what the words of a line tell: numbers, flags and locations.
#![tactic(auto)]

pub mod arguments;
pub mod command;
pub mod lex;
pub mod location;
