// Where things stand in the lent words: a header of 256 words, then 160 words a thread, 32 an object, 32 a DPC. A record is named by its place,
// beside the words and what is asked of it: no struct holds the place, since the words are lent anew as they change.
ghost use Rattle.std.specs.Prelude.{◌≡◌};
ghost use Rattle.words.specs.Layout.{thread_at, objects_at, entry_at};

// The header; a thread's record; an object's or a DPC's record; and the largest number of a thread.
pub const HEADER_SIZE: usize = 256;

pub const THREAD_SIZE: usize = 160;

pub const RECORD_SIZE: usize = 32;

pub const MOST_THREADS: u64 = 256;

// Limits, and how many there are of each.
pub const THREAD_LIMIT: usize = 0;

pub const OBJECT_LIMIT: usize = 1;

pub const DPC_LIMIT: usize = 2;

pub const THREADS: usize = 3;

pub const OBJECTS: usize = 4;

pub const DPCS: usize = 5;
// The running thread (0: none), the sequence of the next wait, the time, and the ready word, with a bit for each priority
// that has a ready thread.
pub const CURRENT: usize = 6;

pub const SEQUENCE: usize = 7;

pub const NOW: usize = 8;

pub const READY: usize = 9;
// The DPC policy (0: none, 1: dispatch) and the two arguments of a timer's work under it.
pub const POLICY: usize = 10;

pub const TIMER_ARGUMENT: usize = 11;

pub const TIMER_ARGUMENT_2: usize = 12;
// The counts of DPC work, and how many times a timer and a DPC have been initialized.
pub const ACCEPTED: usize = 13;

pub const DUPLICATES: usize = 14;

pub const REMOVED: usize = 15;

pub const STARTED: usize = 16;

pub const RETURNED: usize = 17;

pub const RESTORED: usize = 18;

pub const TIMER_INITIALIZATIONS: usize = 19;

pub const DPC_INITIALIZATIONS: usize = 20;
// The first and the last waiter; those of the ready threads of priority p stand at READY_FIRST + p and READY_LAST + p. Places that a
// chain holds are u32.
pub const WAITERS_FIRST: u32 = 21;

pub const WAITERS_LAST: u32 = 22;

// The first and the last DPC of the queue, and the address of the DPC whose work is active (0: none).
pub const QUEUE_FIRST: u32 = 23;

pub const QUEUE_LAST: usize = 24;

pub const ACTIVE: usize = 25;

pub const READY_FIRST: u32 = 32;

pub const READY_LAST: u32 = 64;

// Words of a thread's record.
pub const PRIORITY: usize = 0;

pub const STATE: usize = 1;

pub const NEXT_READY: u32 = 2;

pub const NEXT_WAITER: u32 = 3;

pub const RESULT: usize = 4;

pub const STATUS: usize = 5;

pub const WAIT_ALL: usize = 7;

pub const HAS_DEADLINE: usize = 8;

pub const DEADLINE: usize = 9;

pub const WAIT_SEQUENCE: usize = 10;

pub const WAIT_COUNT: usize = 11;

pub const WAIT_PLACES: usize = 32;

// The record that thread 0 would have: words of the header that nothing keeps.
pub const UNUSED: usize = 96;

// The link of thread n in its ready queue, or among the waiters, stands n records behind this.
pub const READY_LINK: u32 = 96 + NEXT_READY;

pub const WAITERS_LINK: u32 = 96 + NEXT_WAITER;

// Words of an object's record.
pub const KEY: usize = 0;

pub const KIND: usize = 1;

pub const MANUAL: usize = 2;

pub const SIGNALED: usize = 3;

pub const OWNER: usize = 4;

// Words of a timer's record, behind those of every object. The architecture is 0 for x64 and 1 for x86; the backing is 0 for an
// image and 1 for nonpaged pool, with its base, its size (of pool, the requested bytes) and, of pool, the mapped bytes.
pub const INSERTED: usize = 5;

pub const DUE: usize = 6;

pub const PERIOD: usize = 7;

pub const TIMER_DPC: usize = 8;

pub const ABSOLUTE: usize = 9;

pub const ARM: usize = 10;

pub const INITIALIZATION: usize = 11;

pub const TIMER_ARCHITECTURE: usize = 12;

pub const TIMER_BACKING: usize = 13;

pub const TIMER_BASE: usize = 14;

pub const TIMER_SIZE: usize = 15;

pub const TIMER_MAPPED: usize = 16;

// Words of a DPC's record. The phase is 0 idle, 1 queued, 2 running, 3 returning; NAMED_BY is the key of the
// inserted timer that has the DPC, or 0.
pub const ADDRESS: usize = 0;

pub const PHASE: usize = 1;

pub const NEXT_QUEUED: usize = 2;

pub const NAMED_BY: usize = 3;

pub const DPC_ARCHITECTURE: usize = 4;

pub const DPC_BACKING: usize = 5;

pub const DPC_BASE: usize = 6;

pub const DPC_SIZE: usize = 7;

pub const DPC_MAPPED: usize = 8;

pub const ROUTINE: usize = 9;

pub const CONTEXT: usize = 10;

// A DPC's work, which says something unless the phase is idle. The origin is 0 for a caller and 1 for a timer, whose own words follow.
pub const WORK_SEQUENCE: usize = 11;

pub const WORK_ARGUMENT: usize = 12;

pub const WORK_ARGUMENT_2: usize = 13;

pub const ORIGIN: usize = 14;

pub const ORIGIN_TIMER: usize = 15;

pub const ORIGIN_ARM: usize = 16;

pub const ORIGIN_INITIALIZATION: usize = 17;

pub const ORIGIN_DEADLINE: usize = 18;

pub const ORIGIN_OBSERVED: usize = 19;

pub const ORIGIN_PERIODIC: usize = 20;

// What a DPC's number becomes when the table is closed up.
pub const NEW_NUMBER: usize = 21;

// The link of DPC n in the queue stands n records behind the place that is so far before the first DPC.
pub const QUEUE_LINK_BEFORE: usize = RECORD_SIZE - NEXT_QUEUED;

// Where thread `id` stands; a number past the largest is no thread's, and gets unused words of the header.
#[tactic(auto, unfolding(crate::specs::Layout::thread_at))]
pub fn thread_at(id: u64) -> usize
    ensures { result ≡ thread_at id }
{
    if id <= MOST_THREADS {
        UNUSED + THREAD_SIZE * (id as usize)
    } else {
        UNUSED
    }
}

// Where the objects start, behind the records of `t` threads. Like `thread_at` by its arithmetic alone.
#[tactic(auto, unfolding(crate::specs::Layout::objects_at))]
pub fn objects_at(t: u64) -> usize
    ensures { result ≡ objects_at t }
{
    if t <= MOST_THREADS {
        HEADER_SIZE + THREAD_SIZE * (t as usize)
    } else {
        HEADER_SIZE
    }
}

// Where record `i` of a table stands, whose records start at `base`; a number past 8192 is no record's.
#[tactic(auto, unfolding(crate::specs::Layout::entry_at))]
pub fn entry_at(base: usize, i: u64) -> usize
    ensures { result ≡ entry_at base i }
{
    if base <= 1_000_000 {
        if i <= 8192 {
            return base + RECORD_SIZE * (i as usize);
        }
        return UNUSED;
    }
    UNUSED
}
