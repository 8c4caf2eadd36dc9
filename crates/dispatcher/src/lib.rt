// Dispatch, and reading threads. The calls are total: words out of form get an answer too, if no useful one.
#![tactic(auto)]

pub mod dispatch;
pub mod outcome;
pub mod read;
pub mod timer_due;
