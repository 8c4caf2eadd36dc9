// The calls that change a scheduler's words, without the check of their form: for whoever keeps the words to themselves from an accepted
// `open` on. Each has the shape of its like in `exports`, and answers as that does on words in form. Most are `raw_exports`' own; apart are those
// whose arguments C lends otherwise: an owner or a deadline that may be absent, a timer's or a DPC's place, a signed due.
#![tactic(auto, unfolding(unchecked::specs::Unchecked::unchecked))]

pub mod changes;
pub mod dpc_calls;
pub mod timer_calls;
