// The chains in form: the waiters' sequences, and each chain with exactly its members. A chain by a next index that ends
// cannot hold a thread twice, so that as many members as there are threads of that state are these threads.
#![tactic(auto)]

ghost use Rattle.std.specs.Prelude.{◌≡◌, ◌≤◌};
ghost use Rattle.form_dpc.specs.Queue.{counted};
ghost use Rattle.form_chains.specs.Chain.{sequence_at, sequences_rise, has_priority, member_passes, chain_size, waiters_stand_as, bit_passes, queue_size, ready_size, ready_stand_as};

use chains::{Chain, ready};
use form_dpc::queue;
use words::layout;

// The sequence of a waiter's wait; at the chain's end, the next to be given.
#[tactic(auto, unfolding(crate::specs::Chain::sequence_at))]
fn sequence_at(w: &[u64], id: u64) -> u64
    ensures { result ≡ sequence_at w.now id }
{
    if id == 0 {
        return words::get(w, layout::SEQUENCE);
    }
    words::get_in(w, layout::thread_at(id), layout::WAIT_SEQUENCE)
}

// Document 01: wait sequences are distinct and below the next, for they rise along the waiters' chain and up to the next.
// Not by `members`, which does not say whether it came to the end.
pub fn sequences_rise(w: &[u64]) -> bool
    ensures { result ≡ sequences_rise w.now }
{
    let mut at = ready::waiters_chain().front(w);
    for _ in 0..chains::MOST {
        if at == 0 {
            return true;
        }
        let next = ready::waiters_chain().after(w, at);
        if sequence_at(w, next) <= sequence_at(w, at) {
            return false;
        }
        at = next;
    }
    false
}

// Whether a thread has the priority; 0 stands for any, since priorities are from 1.
#[tactic(auto, unfolding(crate::specs::Chain::has_priority))]
fn has_priority(w: &[u64], id: u64, p: u64) -> bool
    ensures { result ≡ has_priority w.now id p }
{
    p == 0 || words::get_in(w, layout::thread_at(id), layout::PRIORITY) == p
}

// Whether `id` is a thread that may stand in a chain of threads of this state and priority.
#[tactic(auto, unfolding(crate::specs::Chain::member_passes))]
fn member_passes(w: &[u64], id: u64, state: u64, p: u64) -> bool
    ensures { result ≡ member_passes w.now id state p }
{
    threads::is_known(w, id) && form_threads::has_state(w, id, state) && has_priority(w, id, p)
}

// How many stand in a chain of threads of this state and priority, 0 for any; None where it is out of form. Not by `members`, for the same reason.
fn chain_size(w: &[u64], c: Chain, state: u64, p: u64) -> Option<u64>
    ensures { result ≡ counted (chain_size w.now c state p) }
{
    let mut before: u64 = 0;
    let mut at = c.front(w);
    for n in 0..chains::MOST as u64 {
        if at == 0 {
            return queue::chain_end(w, c, before, n);
        }
        if !member_passes(w, at, state, p) {
            return None;
        }
        before = at;
        at = c.after(w, at);
    }
    None
}

// Document 01: each chain holds exactly its members once, of the waiters' chain. `waiting` is how many threads wait.
pub fn waiters_stand_once(w: &[u64], waiting: u64) -> bool
    ensures { result ≡ waiters_stand_as w.now waiting }
{
    chain_size(w, ready::waiters_chain(), threads::WAITING, 0) == Some(waiting)
}

// The bit of priority `p` is set exactly if its queue has a last thread.
#[tactic(auto, unfolding(crate::specs::Chain::bit_passes, crate::specs::Chain::flag))]
fn bit_passes(w: &[u64], p: u64) -> bool
    requires { p ≤ 31 }
    ensures { result ≡ bit_passes w.now p }
{
    let c = ready::ready_chain(p);
    let last = words::get(w, c.last as usize);
    let m = words::get(w, layout::READY);
    words::bit_at(m, p) == u64::from(last != 0)
}

#[tactic(auto, unfolding(crate::specs::Chain::queue_size))]
fn queue_size(w: &[u64], p: u64) -> Option<u64>
    ensures { result ≡ counted (queue_size w.now p) }
{
    chain_size(w, ready::ready_chain(p), threads::READY, p)
}

// How many stand in all the ready queues; None where one is out of form.
fn ready_size(w: &[u64]) -> Option<u64>
    ensures { result ≡ counted (ready_size w.now) }
{
    let mut n: u64 = 0;
    for p in 1..32u64 {
        let size = queue_size(w, p)?;
        if !bit_passes(w, p) {
            return None;
        }
        n += size;
    }
    Some(n)
}

// Document 01: each chain holds exactly its members once, of the ready queues. `ready` is how many threads are ready.
pub fn ready_stand_once(w: &[u64], ready: u64) -> bool
    ensures { result ≡ ready_stand_as w.now ready }
{
    ready_size(w) == Some(ready)
}
