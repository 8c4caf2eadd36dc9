// The calls that read a scheduler's words, without the check of their form: for whoever keeps the words to themselves from an accepted
// `open` on. Each has the shape of its like in `exports`, and answers as that does on words in form.
#![tactic(auto, unfolding(unchecked::specs::Unchecked::unchecked))]

pub mod dpc_calls;
pub mod entry_calls;
pub mod image_calls;
pub mod object_calls;
pub mod thread_calls;
pub mod timer_calls;
