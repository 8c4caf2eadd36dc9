// The calls on a scheduler's words, as a user makes them. Each first checks the form of the words: words out of form are
// refused with 27, and left as they are. Names and parameters are the Rust's, with the words in the place of its `self`.
#![tactic(auto, unfolding(calls::specs::Called::called, calls::specs::Guard::guarded, calls::specs::Guard::guarded_start, calls::specs::Guard::guarded_dispatch, calls::specs::Guard::readable, form::specs::Form::checked))]

pub mod changes;
pub mod dpc_calls;
pub mod reads;
pub mod thread_reads;
pub mod timer_calls;
