// The calls that change a scheduler without the form check as C's functions, each by the function of `unchecked_calls` that has its name and its clauses.
#![tactic(auto)]

pub mod changes;
pub mod dpc_calls;
pub mod timer_calls;
