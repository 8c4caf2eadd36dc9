// The proved calls as C's functions, each by the function of `exports` that has its name and its clauses.
#![tactic(auto)]

pub mod clock_calls;
pub mod dpc_calls;
pub mod image_calls;
pub mod scheduler_calls;
pub mod thread_calls;
pub mod timer_calls;
