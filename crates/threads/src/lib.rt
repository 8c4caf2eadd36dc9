// A thread's record in the words: its state, and what it waits for.
#![tactic(auto)]

ghost use Rattle.std.specs.Prelude.{◌≡◌, ◌≤◌};
ghost use Rattle.threads.specs.Thread.{thread_of, put_thread, known, thread_count, count_of, all_of, places_at, filled, recorded, put_places, put_terms, put_wait, no_wait};

use words::layout;

// States and wait results are numbers, since lent words hold them, and the definitions speak of any word.

// States.
pub const RUNNING: u64 = 1;

pub const READY: u64 = 2;

pub const WAITING: u64 = 3;

pub const EXITED: u64 = 4;

// Wait results: none, a timeout, or the answered index and SATISFIED.
pub const NO_RESULT: u64 = 0;

pub const TIMEOUT: u64 = 1;

pub const SATISFIED: u64 = 2;

#[derive(Clone, Copy, Debug, PartialEq, Eq)]
pub struct Thread {
    pub priority: u64,
    pub state: u64,
    pub result: u64,
    pub status: u64,
}

// A wait for any or all of `count` objects: of 64 places, each a kind and a key, the first `count`. A delay has none. Its fields
// are the words of a record, flags and all.
#[derive(Clone, Copy, Debug, PartialEq, Eq)]
pub struct Wait {
    pub all: u64,
    pub timed: u64,
    pub deadline: u64,
    pub sequence: u64,
    pub count: u64,
    pub places: [u64; 128],
}

pub fn read_thread(w: &[u64], id: u64) -> Thread
    ensures { result ≡ thread_of w.now id }
{
    let at = layout::thread_at(id);
    Thread {
        priority: words::get_in(w, at, layout::PRIORITY),
        state: words::get_in(w, at, layout::STATE),
        result: words::get_in(w, at, layout::RESULT),
        status: words::get_in(w, at, layout::STATUS),
    }
}

pub fn write_thread(w: &mut [u64], id: u64, t: Thread)
    ensures { w.new ≡ put_thread w.old id t }
{
    let at = layout::thread_at(id);
    words::put_in(w, at, layout::PRIORITY, t.priority);
    words::put_in(w, at, layout::STATE, t.state);
    words::put_in(w, at, layout::RESULT, t.result);
    words::put_in(w, at, layout::STATUS, t.status);
}

// Whether there is a thread of this number.
pub fn is_known(w: &[u64], id: u64) -> bool
    ensures { result ≡ known w.now id }
{
    0 < id && id <= words::get(w, layout::THREADS)
}

// How many threads there are, at most the largest number of one.
pub fn count(w: &[u64]) -> u64
    ensures { result ≡ thread_count w.now }
{
    words::get(w, layout::THREADS).min(layout::MOST_THREADS)
}

// How many objects a thread waits for, at most 64.
pub fn count_of(w: &[u64], id: u64) -> usize
    ensures { result ≡ count_of w.now id }
{
    words::get_in(w, layout::thread_at(id), layout::WAIT_COUNT).min(64) as usize
}

// 0 where a thread waits for any one.
pub fn all_of(w: &[u64], id: u64) -> u64
    ensures { result ≡ all_of w.now id }
{
    words::get_in(w, layout::thread_at(id), layout::WAIT_ALL)
}

// Where a thread's places start.
pub fn places_at(id: u64) -> usize
    ensures { result ≡ places_at id }
{
    layout::thread_at(id) + layout::WAIT_PLACES
}

// The first `n` words of `list` in an array of 64 places. No slice of it is copied, since it may have fewer.
fn fill(list: &[u64], n: usize) -> [u64; 128]
    requires { n ≤ 128 }
    ensures { result ≡ filled n list.now }
{
    let mut places = [0u64; 128];
    for i in 0..n {
        places[i] = words::get(list, i);
    }
    places
}

// The record of a wait for the first `n` pairs of `list`, given the other words as it holds them.
pub fn record_of(list: &[u64], n: usize, all: u64, timed: u64, deadline: u64, sequence: u64) -> Wait
    requires { n ≤ 64 }
    ensures { result ≡ recorded list.now n all timed deadline sequence }
{
    Wait {
        all,
        timed,
        deadline,
        sequence,
        count: n as u64,
        places: fill(list, 2 * n),
    }
}

// The first `n` words of the places written from `at` on.
fn put_places(w: &mut [u64], at: usize, places: [u64; 128], n: usize)
    requires { n ≤ 128 }
    ensures { w.new ≡ put_places n w.old at places 0 }
{
    for i in 0..n {
        words::put_in(w, at, i, places[i]);
    }
}

// The words of a thread's wait beside its places.
fn put_terms(w: &mut [u64], id: u64, x: Wait)
    ensures { w.new ≡ put_terms w.old id x }
{
    let at = layout::thread_at(id);
    words::put_in(w, at, layout::WAIT_ALL, x.all);
    words::put_in(w, at, layout::HAS_DEADLINE, x.timed);
    words::put_in(w, at, layout::DEADLINE, x.deadline);
    words::put_in(w, at, layout::WAIT_SEQUENCE, x.sequence);
    words::put_in(w, at, layout::WAIT_COUNT, x.count);
}

// A thread's wait written; places past the count stay as they are.
pub fn write_wait(w: &mut [u64], id: u64, x: Wait)
    requires { x.count ≤ 64 }
    ensures { w.new ≡ put_wait w.old id x }
{
    put_terms(w, id, x);
    put_places(w, places_at(id), x.places, 2 * x.count as usize);
}

// A function: a const of 1 KB is copied all the same, and is no plainer.
pub fn no_wait() -> Wait
    ensures { result ≡ no_wait }
{
    Wait {
        all: 0,
        timed: 0,
        deadline: 0,
        sequence: 0,
        count: 0,
        places: [0u64; 128],
    }
}
