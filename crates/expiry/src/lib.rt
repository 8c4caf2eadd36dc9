// The expiry of timers: which are due, what refuses an advance, and what the expiry of one does.
#![tactic(auto)]

pub mod check;
pub mod due;
pub mod expire;
pub mod next;
