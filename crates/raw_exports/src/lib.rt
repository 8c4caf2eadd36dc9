// The calls that change a scheduler's words, without the check of their form, for the benchmark. Each has the shape of its like in `exports`.
#![tactic(auto)]

pub mod changes;
pub mod dpc_calls;
pub mod timer_calls;
