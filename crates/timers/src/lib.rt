// The calls that make, read and release timers, and the making of DPCs. They are total: words out of form get an answer too, if no
// useful one.
#![tactic(auto)]

pub mod initialize;
pub mod reads;
pub mod record;
pub mod release;
