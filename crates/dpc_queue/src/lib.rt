// Work put last into the DPC queue, and work taken out of it.
#![tactic(auto)]

ghost use Rattle.std.specs.Prelude.{◌≡◌};
ghost use Rattle.dpc_queue.specs.Queue.{raised, origin_put, work_put, queued, accepted, withdrawn};

use dpcs::record;
pub use dpcs::record::{IDLE, QUEUED, RETURNING, RUNNING};
use words::layout;

// Who puts the work into the queue: `timer` is 0 for a caller, whose other words are 0, and 1 for a timer. No enum: these are the words
// of a record, and the definitions write all seven, whoever it is.
#[derive(Clone, Copy, Debug, PartialEq, Eq)]
pub struct Origin {
    pub timer: u64,
    pub address: u64,
    pub arm: u64,
    pub initialization: u64,
    pub deadline: u64,
    pub observed: u64,
    pub periodic: u64,
}

// The count at word `i` raised by one.
pub fn raise(w: &mut [u64], i: usize)
    ensures { w.new ≡ raised w.old i }
{
    let n = words::get(w, i).wrapping_add(1);
    words::put(w, i, n);
}

// The origin of the work whose record stands at place `at`. Each record has a writer of its own, a line a word.
fn put_origin(w: &mut [u64], at: usize, o: Origin)
    ensures { w.new ≡ origin_put w.old at o }
{
    words::put_in(w, at, layout::ORIGIN, o.timer);
    words::put_in(w, at, layout::ORIGIN_TIMER, o.address);
    words::put_in(w, at, layout::ORIGIN_ARM, o.arm);
    words::put_in(w, at, layout::ORIGIN_INITIALIZATION, o.initialization);
    words::put_in(w, at, layout::ORIGIN_DEADLINE, o.deadline);
    words::put_in(w, at, layout::ORIGIN_OBSERVED, o.observed);
    words::put_in(w, at, layout::ORIGIN_PERIODIC, o.periodic);
}

// The record at place `at` queued, with its work but for the origin.
fn put_work(w: &mut [u64], at: usize, sequence: u64, first: u64, second: u64)
    ensures { w.new ≡ work_put w.old at sequence first second }
{
    words::put_in(w, at, layout::PHASE, QUEUED);
    words::put_in(w, at, layout::WORK_SEQUENCE, sequence);
    words::put_in(w, at, layout::WORK_ARGUMENT, first);
    words::put_in(w, at, layout::WORK_ARGUMENT_2, second);
}

// Whether DPC `n` is queued.
pub fn is_queued(w: &[u64], n: u64) -> bool
    ensures { result ≡ queued w.now n }
{
    words::get_in(w, record::place(w, n), layout::PHASE) == QUEUED
}

// DPC `n`, which is idle, made the last of the queue: an acceptance, whose number is the work's sequence.
pub fn accept(w: &mut [u64], n: u64, first: u64, second: u64, o: Origin)
    ensures { w.new ≡ accepted w.old n first second o }
{
    let sequence = words::get(w, layout::ACCEPTED).wrapping_add(1);
    let at = record::place(w, n);
    let queue = record::queue_chain(w);
    put_work(w, at, sequence, first, second);
    put_origin(w, at, o);
    queue.push(w, n);
    words::put(w, layout::ACCEPTED, sequence);
}

// DPC `n`, which is queued, taken out of the queue: a removal.
pub fn withdraw(w: &mut [u64], n: u64)
    ensures { w.new ≡ withdrawn w.old n }
{
    let at = record::place(w, n);
    let queue = record::queue_chain(w);
    queue.remove(w, n);
    words::put_in(w, at, layout::PHASE, IDLE);
    raise(w, layout::REMOVED);
}
