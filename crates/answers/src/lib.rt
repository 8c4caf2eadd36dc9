// What a call answers: its Rust result, or the number of its refusal.
#![tactic(auto)]

pub mod error;
pub mod told;

// One type for all calls, in which a script's answers and the log's are told; a call's own answer is a Result or an Option.
#[derive(Clone, Copy)]
pub enum Answer {
    // The call is refused, by a number of document 01's table.
    Refused(u64),
    Done,
    // There is none: no thread runs, no thread owns the mutex, nothing stands at the position.
    None,
    Thread(u64),
    // A yes or no.
    Flag(bool),
    Count(u64),
    // A wait that was granted, with its index, one that timed out, and one that blocked.
    Satisfied(u64),
    Timeout,
    Blocked,
    // A dispatch.
    Run(u64),
    AdvanceTo(u64),
    Deadlocked(u64),
    Finished,
    Event {
        key: u64,
        manual: bool,
        signaled: bool,
    },
}

// The number of a thread, from 1 on.
#[derive(Clone, Copy, Debug, PartialEq, Eq)]
pub struct ThreadId(pub u64);
