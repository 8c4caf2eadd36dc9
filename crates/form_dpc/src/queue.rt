// The DPC queue in form: a chain by a next index that ends cannot hold a DPC twice, so that as many members as there are
// queued DPCs are these DPCs.
ghost use Rattle.std.specs.Prelude.{◌≡◌, ◌+◌};
ghost use Rattle.form_dpc.specs.Queue.{counted, chain_end, queued_at, queue_size, queue_stands_as};

use super::dpc_records;
use chains::Chain;
use dpcs::record;

// What the end of a chain behind record `before` gives, where `n` stand in it: None where the chain's last is another.
#[tactic(auto, unfolding(crate::specs::Queue::chain_end, crate::specs::Queue::counted), using(crate::proofs::FormDpcLaws::counted_more))]
pub fn chain_end(w: &[u64], c: Chain, before: u64, n: u64) -> Option<u64>
    ensures { result ≡ counted (chain_end w.now c before (n + 1)) }
{
    if words::get(w, c.last as usize) == before {
        Some(n)
    } else {
        None
    }
}

// Whether `n`, not 0, is the number of a queued DPC.
#[tactic(auto, unfolding(crate::specs::Queue::queued_at))]
fn is_queued(w: &[u64], n: u64) -> bool
    ensures { result ≡ queued_at w.now n }
{
    n <= record::count(w) && dpc_records::has_phase(w, record::place(w, n), dpc_records::QUEUED)
}

// One step more than there can be DPCs sees the queue's end.
const STEPS: u64 = 4097;

// How many stand in the queue; None where it is out of form. Not by `members`, which does not say whether it came to the end.
fn queue_size(w: &[u64]) -> Option<u64>
    ensures { result ≡ counted (queue_size w.now) }
{
    let c = record::queue_chain(w);
    let mut before: u64 = 0;
    let mut at = c.front(w);
    for n in 0..STEPS {
        if at == 0 {
            return chain_end(w, c, before, n);
        }
        if !is_queued(w, at) {
            return None;
        }
        before = at;
        at = c.after(w, at);
    }
    None
}

// Document 01: each chain holds exactly its members once, of the DPC queue. `queued` is how many DPCs are queued.
pub fn queue_stands_once(w: &[u64], queued: u64) -> bool
    ensures { result ≡ queue_stands_as w.now queued }
{
    queue_size(w) == Some(queued)
}
