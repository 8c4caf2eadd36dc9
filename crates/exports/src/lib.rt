// The proved calls for C and Rust. C lends no struct and takes no enum: parameters come one by one, words and records of answers are slices of
// numbers, and each call answers 0 or a number of document 01's table.
#![tactic(auto)]

pub mod clock_calls;
pub mod dpc_calls;
pub mod image_calls;
pub mod record_answer;
pub mod scheduler_answer;
pub mod scheduler_calls;
pub mod tags;
pub mod thread_calls;
pub mod timer_calls;
