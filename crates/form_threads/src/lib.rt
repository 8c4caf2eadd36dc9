// The threads in form: each record's numbers, who runs, and what the waiting ones wait for.
#![tactic(auto)]

ghost use Rattle.std.specs.Prelude.{◌≡◌};
ghost use Rattle.form_threads.specs.Thread.{has_state, live, bad_state, record_passes, exit_passes, wait_passes, delay_passes, thread_numbers, runs_if_current, waits_for_known, waits_for_each_once, thread_passes, threads_seen};

use waits::lists;
use words::layout;

#[tactic(auto, unfolding(crate::specs::Thread::has_state))]
pub fn has_state(w: &[u64], id: u64, state: u64) -> bool
    ensures { result ≡ has_state w.now id state }
{
    words::get_in(w, layout::thread_at(id), layout::STATE) == state
}

// Whether there is a thread of this number that has not exited.
#[tactic(auto, unfolding(crate::specs::Thread::live))]
pub fn is_live(w: &[u64], id: u64) -> bool
    ensures { result ≡ live w.now id }
{
    if threads::is_known(w, id) {
        return !has_state(w, id, threads::EXITED);
    }
    false
}

#[tactic(auto, unfolding(crate::specs::Thread::bad_state))]
fn is_bad_state(state: u64) -> bool
    ensures { result ≡ bad_state state }
{
    state < threads::RUNNING || threads::EXITED < state
}

// A priority, a state, a wait result (the last is that of place 63), and an exit status of 32 bits.
#[tactic(auto, unfolding(crate::specs::Thread::record_passes))]
fn record_passes(w: &[u64], id: u64) -> bool
    ensures { result ≡ record_passes w.now id }
{
    let t = threads::read_thread(w, id);
    !opening::is_bad_priority(t.priority)
        && !is_bad_state(t.state)
        && t.result <= 65
        && t.status <= 0xffff_ffff
}

// Words that say nothing hold 0: the exit status of a thread that has not exited.
#[tactic(auto, unfolding(crate::specs::Thread::exit_passes))]
fn exit_passes(w: &[u64], id: u64) -> bool
    ensures { result ≡ exit_passes w.now id }
{
    has_state(w, id, threads::EXITED)
        || words::get_in(w, layout::thread_at(id), layout::STATUS) == 0
}

// The wait that a thread has, or had last: two flags, at most 64 places, and kinds.
#[tactic(auto, unfolding(crate::specs::Thread::wait_passes))]
fn wait_passes(w: &[u64], id: u64) -> bool
    ensures { result ≡ wait_passes w.now id }
{
    let at = layout::thread_at(id);
    words::get_in(w, at, layout::WAIT_ALL) <= 1
        && words::get_in(w, at, layout::HAS_DEADLINE) <= 1
        && words::get_in(w, at, layout::WAIT_COUNT) <= 64
        && !lists::places(w, id).has_bad_kind()
}

// A thread that waits for no object is delayed, until a time.
#[tactic(auto, unfolding(crate::specs::Thread::delay_passes))]
fn delay_passes(w: &[u64], id: u64) -> bool
    ensures { result ≡ delay_passes w.now id }
{
    !has_state(w, id, threads::WAITING)
        || threads::count_of(w, id) != 0
        || words::get_in(w, layout::thread_at(id), layout::HAS_DEADLINE) == 1
}

// Document 01: stored numbers pass their checks, of a thread.
#[tactic(auto, unfolding(crate::specs::Thread::thread_numbers))]
fn numbers_pass(w: &[u64], id: u64) -> bool
    ensures { result ≡ thread_numbers w.now id }
{
    record_passes(w, id) && exit_passes(w, id) && wait_passes(w, id) && delay_passes(w, id)
}

// Document 01: only the current one runs.
#[tactic(auto, unfolding(crate::specs::Thread::runs_if_current))]
fn runs_if_current(w: &[u64], id: u64) -> bool
    ensures { result ≡ runs_if_current w.now id }
{
    has_state(w, id, threads::RUNNING) == (words::get(w, layout::CURRENT) == id)
}

// Document 01: waited objects exist.
#[tactic(auto, unfolding(crate::specs::Thread::waits_for_known))]
fn waits_for_known(w: &[u64], id: u64) -> bool
    ensures { result ≡ waits_for_known w.now id }
{
    !has_state(w, id, threads::WAITING) || !lists::places(w, id).has_unknown(w)
}

// Document 01: no wait list names an object twice.
#[tactic(auto, unfolding(crate::specs::Thread::waits_for_each_once))]
fn waits_for_each_once(w: &[u64], id: u64) -> bool
    ensures { result ≡ waits_for_each_once w.now id }
{
    !has_state(w, id, threads::WAITING) || !lists::places(w, id).has_duplicate()
}

#[tactic(auto, unfolding(crate::specs::Thread::thread_passes))]
fn thread_passes(w: &[u64], id: u64) -> bool
    ensures { result ≡ thread_passes w.now id }
{
    numbers_pass(w, id)
        && runs_if_current(w, id)
        && waits_for_known(w, id)
        && waits_for_each_once(w, id)
}

// How many threads are ready and how many wait.
#[derive(Clone, Copy)]
pub struct Counts {
    pub ready: u64,
    pub waiting: u64,
}

// The one pass of the threads: each is tested and counted. None where one does not pass.
pub fn threads_pass(w: &[u64]) -> Option<Counts>
    ensures { result ≡ threads_seen w.now }
{
    let mut ready: u64 = 0;
    let mut waiting: u64 = 0;
    let end = threads::count(w) + 1;
    for id in 1..end {
        if !thread_passes(w, id) {
            return None;
        }
        ready += u64::from(has_state(w, id, threads::READY));
        waiting += u64::from(has_state(w, id, threads::WAITING));
    }
    Some(Counts { ready, waiting })
}
