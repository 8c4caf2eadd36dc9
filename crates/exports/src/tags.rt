// The tag of each answer, the first word of an `out`. `include/driver_bench.h` has the same, and says what stands behind each.
pub const DONE: u64 = 1;

pub const NONE: u64 = 2;

pub const THREAD: u64 = 3;

pub const FLAG: u64 = 4;

pub const COUNT: u64 = 5;

pub const SATISFIED: u64 = 6;

pub const TIMEOUT: u64 = 7;

pub const BLOCKED: u64 = 8;

pub const RUN: u64 = 9;

pub const ADVANCE_TO: u64 = 10;

pub const DEADLOCKED: u64 = 11;

pub const FINISHED: u64 = 12;

pub const EVENT: u64 = 13;

pub const TIMER: u64 = 14;

pub const DPC: u64 = 15;

pub const WORK: u64 = 16;

pub const NO_POLICY: u64 = 17;

pub const POLICY: u64 = 18;

pub const COUNTERS: u64 = 19;

pub const THREAD_RECORD: u64 = 20;

pub const OBJECT: u64 = 21;
