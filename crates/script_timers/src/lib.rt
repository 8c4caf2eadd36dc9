// The lines of the calls on the clock, timers and DPCs.
#![tactic(auto)]

pub mod clock_lines;
mod dpc_lines;
pub mod timer_lines;
