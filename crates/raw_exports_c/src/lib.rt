// The calls without the check of their form as C's functions, each by the function of `raw_exports` that has its name and its clauses.
#![tactic(auto)]

pub mod changes;
pub mod dpc_calls;
pub mod timer_calls;
