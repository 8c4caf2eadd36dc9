// Running a script's lines: bytes to lines, a line to what it does to a bench, and the answer's line written.
#![tactic(auto)]

pub mod lines;
pub mod session;
