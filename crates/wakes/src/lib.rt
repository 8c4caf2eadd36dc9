// Waking: threads made ready, the wake pass, and what the waiting threads wait for.
#![tactic(auto)]

ghost use Rattle.std.specs.Prelude.{◌≡◌};
ghost use Rattle.wakes.specs.Wake.{made_ready, awoken, grantable, visited, visited_to, awake, waits_for, waits_on};

use chains::ready;
use waits::lists;
use words::layout;

// A thread that waited made ready with its wait's result, last in its priority's queue.
#[tactic(auto, unfolding(crate::specs::Wake::made_ready))]
pub fn make_ready(w: &mut [u64], id: u64, res: u64)
    ensures { w.new ≡ made_ready w.old id res }
{
    let t = threads::read_thread(w, id);
    threads::write_thread(
        w,
        id,
        threads::Thread {
            state: threads::READY,
            result: res,
            ..t
        },
    );
    ready::place(w, t.priority, id);
}

// A waiting thread, which comes after `before`, takes its objects and is made ready.
fn awaken(w: &mut [u64], before: u64, id: u64)
    ensures { w.new ≡ awoken w.old before id }
{
    let at = threads::places_at(id);
    let n = threads::count_of(w, id);
    let all = threads::all_of(w, id);
    let i = lists::places(w, id).index(w, all);
    lists::takes_own(w, id, at, n, all);
    ready::waiters_chain().unlink(w, before, id);
    make_ready(w, id, i + threads::SATISFIED);
}

// Whether a waiting thread's wait can be granted. A delay waits for no object.
#[tactic(auto, unfolding(crate::specs::Wake::grantable))]
pub fn is_grantable(w: &[u64], id: u64) -> bool
    ensures { result ≡ grantable w.now id }
{
    let list = lists::places(w, id);
    if list.n == 0 {
        return false;
    }
    list.is_met(w, threads::all_of(w, id))
}

// A waiting thread woken if its wait can be granted. Answers the one that now comes before the next.
#[tactic(auto, unfolding(crate::specs::Wake::visited, crate::specs::Wake::visited_to))]
fn visit(w: &mut [u64], before: u64, id: u64) -> u64
    ensures { (result ≡ visited_to w.old before id) × (w.new ≡ visited w.old before id) }
{
    if is_grantable(w, id) {
        awaken(w, before, id);
        return before;
    }
    id
}

// The wake pass: the waiting threads by wait sequence, each once. Not by `members`, which would hold the words that a visit changes.
pub fn wake(w: &mut [u64])
    ensures { w.new ≡ awake w.old }
{
    let mut before: u64 = 0;
    let mut at = ready::waiters_chain().front(w);
    for _ in 0..chains::MOST {
        if at == 0 {
            return;
        }
        let next = ready::waiters_chain().after(w, at);
        before = visit(w, before, at);
        at = next;
    }
}

// Whether the thread's wait names the object.
#[tactic(auto, unfolding(crate::specs::Wake::waits_for))]
fn waits_for(w: &[u64], id: u64, kind: u64, key: u64) -> bool
    ensures { result ≡ waits_for w.now kind key id }
{
    lists::places(w, id).has(kind, key)
}

// Whether some thread waits for the object.
pub fn waits_on(w: &[u64], kind: u64, key: u64) -> bool
    ensures { result ≡ waits_on w.now kind key }
{
    ready::waiters_chain()
        .members(w)
        .any(|id| waits_for(w, id, kind, key))
}
