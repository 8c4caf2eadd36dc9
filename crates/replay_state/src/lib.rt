// An answer as text, and all that the exported reads show of a scheduler.
#![tactic(auto)]

pub mod reads;
pub mod show;
