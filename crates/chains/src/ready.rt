// The chains of threads: a ready queue for each priority, with the ready word beside them, and the waiters.
ghost use Rattle.std.specs.Prelude.{◌≡◌, cond};
ghost use Rattle.chains.specs.Ready.{ready_chain, waiters_chain, marked, unmarked, placed_last, unplaced};

use super::Chain;
use words::layout;

// The ready queue of priority `p`. A number past 31 is no priority, and gets the unused words of priority 0.
#[tactic(auto, unfolding(crate::specs::Ready::ready_chain))]
pub fn ready_chain(p: u64) -> Chain
    ensures { result ≡ ready_chain p }
{
    if p <= 31 {
        return Chain {
            first: layout::READY_FIRST + (p as u32),
            last: layout::READY_LAST + (p as u32),
            link: layout::READY_LINK,
            stride: 160,
        };
    }
    Chain {
        first: layout::READY_FIRST,
        last: layout::READY_LAST,
        link: layout::READY_LINK,
        stride: 160,
    }
}

// The waiting threads, in the order of blocking.
#[tactic(auto, unfolding(crate::specs::Ready::waiters_chain))]
pub fn waiters_chain() -> Chain
    ensures { result ≡ waiters_chain }
{
    Chain {
        first: layout::WAITERS_FIRST,
        last: layout::WAITERS_LAST,
        link: layout::WAITERS_LINK,
        stride: 160,
    }
}

// The bit of priority `p` set, or cleared, where its queue has no last thread.
#[tactic(auto, unfolding(crate::specs::Ready::marked, crate::specs::Ready::unmarked))]
fn mark(w: &mut [u64], p: u64, ready: bool)
    ensures { w.new ≡ cond ready (marked w.old p) (unmarked w.old p) }
{
    let c = ready_chain(p);
    if words::get(w, c.last as usize) == 0 {
        let m = words::get(w, layout::READY);
        let m = if ready {
            words::with_bit(m, p)
        } else {
            words::without_bit(m, p)
        };
        words::put(w, layout::READY, m);
    }
}

// Thread `id`, in no ready queue, placed last in the queue of priority `p`.
#[tactic(auto, unfolding(crate::specs::Ready::placed_last))]
pub fn place(w: &mut [u64], p: u64, id: u64)
    ensures { w.new ≡ placed_last w.old p id }
{
    mark(w, p, true);
    ready_chain(p).push(w, id);
}

// Thread `id`, which stands in the queue of priority `p`, taken out.
#[tactic(auto, unfolding(crate::specs::Ready::unplaced))]
pub fn unplace(w: &mut [u64], p: u64, id: u64)
    ensures { w.new ≡ unplaced w.old p id }
{
    ready_chain(p).remove(w, id);
    mark(w, p, false);
}
