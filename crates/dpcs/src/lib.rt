// The DPCs: what a record says, and which DPC an inserted timer has.
#![tactic(auto)]

pub mod named;
pub mod record;
