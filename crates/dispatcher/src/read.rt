// What is read of a thread, and of what it waits for. The words of a wait stay when the wait ends: they are read of a waiting
// thread only.
ghost use Rattle.std.specs.Prelude.{◌≡◌};
ghost use Rattle.dispatcher.specs.Read.{waited_count, wait_word, view_of, thread_read, threads_at, waited_object, told_thread, told_place};

use super::dispatch;
use waits::lists;
use words::layout;

// `all` and `timed` are 0 or 1; `status` is an exited thread's; from `all` on, 0 for a thread that does not wait. Words, as the
// definitions and C's record have these fields.
#[derive(Clone, Copy, Debug, PartialEq, Eq)]
pub struct ThreadView {
    pub id: u64,
    pub priority: u64,
    pub state: u64,
    pub result: u64,
    pub status: u64,
    pub all: u64,
    pub timed: u64,
    pub deadline: u64,
    pub sequence: u64,
    pub count: u64,
}

#[derive(Clone, Copy, Debug, PartialEq, Eq)]
pub struct Place {
    pub kind: u64,
    pub key: u64,
}

// How many objects the thread waits for.
#[tactic(auto, unfolding(crate::specs::Read::waited_count))]
fn waited_count(w: &[u64], id: u64) -> u64
    ensures { result ≡ waited_count w.now id }
{
    if dispatch::is_waiting(w, id) {
        threads::count_of(w, id) as u64
    } else {
        0
    }
}

// Word `k` of its record, a word of its wait.
#[tactic(auto, unfolding(crate::specs::Read::wait_word))]
fn wait_word(w: &[u64], id: u64, k: usize) -> u64
    ensures { result ≡ wait_word w.now id k }
{
    if dispatch::is_waiting(w, id) {
        words::get_in(w, layout::thread_at(id), k)
    } else {
        0
    }
}

#[tactic(auto, unfolding(crate::specs::Read::view_of))]
fn view(w: &[u64], id: u64) -> ThreadView
    ensures { result ≡ view_of w.now id }
{
    let t = threads::read_thread(w, id);
    ThreadView {
        id,
        priority: t.priority,
        state: t.state,
        result: t.result,
        status: t.status,
        all: wait_word(w, id, layout::WAIT_ALL),
        timed: wait_word(w, id, layout::HAS_DEADLINE),
        deadline: wait_word(w, id, layout::DEADLINE),
        sequence: wait_word(w, id, layout::WAIT_SEQUENCE),
        count: waited_count(w, id),
    }
}

// The thread of this number.
#[tactic(auto, unfolding(crate::specs::Read::thread_read))]
pub fn thread(w: &[u64], id: u64) -> Option<ThreadView>
    ensures { told_thread result ≡ thread_read w.now id }
{
    if threads::is_known(w, id) {
        Some(view(w, id))
    } else {
        None
    }
}

// The thread at a position in the order of the numbers, from 0 on.
#[tactic(auto, unfolding(crate::specs::Read::threads_at))]
pub fn threads_at(w: &[u64], position: u64) -> Option<ThreadView>
    ensures { told_thread result ≡ threads_at w.now position }
{
    thread(w, position.checked_add(1)?)
}

// The object at a position in a thread's wait, from 0 on.
#[tactic(auto, using(crate::proofs::ReadLaws::waited_most), unfolding(crate::specs::Read::waited_object))]
pub fn waited_object(w: &[u64], id: u64, position: u64) -> Option<Place>
    ensures { told_place result ≡ waited_object w.now id position }
{
    if !threads::is_known(w, id) || waited_count(w, id) <= position {
        return None;
    }
    let list = lists::places(w, id);
    let i = position as usize;
    Some(Place {
        kind: list.kind(i),
        key: list.key(i),
    })
}
