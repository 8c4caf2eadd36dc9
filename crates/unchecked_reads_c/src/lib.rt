// The reads without the form check as C's functions, each by the function of `unchecked_reads` that has its name and its clauses.
#![tactic(auto)]

pub mod dpc_calls;
pub mod entry_calls;
pub mod image_calls;
pub mod object_calls;
pub mod thread_calls;
pub mod timer_calls;
