// A DPC's record: its number, its place, and what its words say. A DPC's number is its position in the table and one more.
ghost use Rattle.std.specs.Prelude.{◌≡◌, ◌+◌, ◌≤◌, get_or};
ghost use Rattle.images.specs.Place.{backing_of};
ghost use Rattle.objects.specs.Found.{nonzero};
ghost use Rattle.dpcs.specs.Record.{dpc_count, number_of, place_at, queue_chain, timer_origin, origin_at, work_at, phase_at, dpc_at};

use chains::Chain;
use images::{Dpc, DpcOrigin, DpcPhase, DpcWork, TimerBacking};
use words::layout;

// The phases of a DPC as words hold them; `DpcPhase` is what they tell.
pub const IDLE: u64 = 0;

pub const QUEUED: u64 = 1;

pub const RUNNING: u64 = 2;

pub const RETURNING: u64 = 3;

// How many DPCs there are, at most 4096.
pub fn count(w: &[u64]) -> u64
    ensures { result ≡ dpc_count w.now }
{
    words::get(w, layout::DPCS).min(4096)
}

// The number of the DPC at the address.
#[tactic(auto, unfolding(crate::specs::Record::number_of))]
pub fn number_of(w: &[u64], address: u64) -> Option<u64>
    ensures { result ≡ nonzero (number_of w.now address) }
{
    let base = objects::dpcs_base(w);
    let n = words::get(w, layout::DPCS);
    let i = tables::find(w, base, n, address);
    if n <= i || tables::key_at(w, base, i) != address {
        return None;
    }
    Some(i + 1)
}

// Where DPC `n` stands; a number that no DPC can have gets unused words of the header.
#[tactic(auto, unfolding(crate::specs::Record::place_at))]
pub fn place(w: &[u64], n: u64) -> usize
    ensures { result ≡ place_at w.now n }
{
    if n == 0 || 4096 < n {
        return layout::UNUSED;
    }
    layout::entry_at(objects::dpcs_base(w), n - 1)
}

// The queued DPCs, in the order in which their work came.
pub fn queue_chain(w: &[u64]) -> Chain
    ensures { result ≡ queue_chain w.now }
{
    let base = objects::dpcs_base(w);
    Chain {
        first: layout::QUEUE_FIRST,
        last: layout::QUEUE_LAST as u32,
        link: (base - layout::QUEUE_LINK_BEFORE) as u32,
        stride: 32,
    }
}

// The timer that the work at place `at` came from.
fn timer_origin(w: &[u64], at: usize) -> DpcOrigin
    ensures { result ≡ timer_origin w.now at }
{
    DpcOrigin::Timer {
        address: words::get_in(w, at, layout::ORIGIN_TIMER),
        arm: words::get_in(w, at, layout::ORIGIN_ARM),
        initialization: words::get_in(w, at, layout::ORIGIN_INITIALIZATION),
        deadline: words::get_in(w, at, layout::ORIGIN_DEADLINE),
        observed: words::get_in(w, at, layout::ORIGIN_OBSERVED),
        periodic: words::get_in(w, at, layout::ORIGIN_PERIODIC) != 0,
    }
}

fn origin_at(w: &[u64], at: usize) -> DpcOrigin
    ensures { result ≡ origin_at w.now at }
{
    if words::get_in(w, at, layout::ORIGIN) == 0 {
        return DpcOrigin::Caller;
    }
    timer_origin(w, at)
}

// The work of the DPC at place `at`.
pub fn work_at(w: &[u64], at: usize) -> DpcWork
    ensures { result ≡ work_at w.now at }
{
    DpcWork {
        sequence: words::get_in(w, at, layout::WORK_SEQUENCE),
        first: words::get_in(w, at, layout::WORK_ARGUMENT),
        second: words::get_in(w, at, layout::WORK_ARGUMENT_2),
        origin: origin_at(w, at),
    }
}

// The backing whose kind, base, size and mapped bytes are the four words from word `k` on of the record at place `at`, be it a DPC's or a
// timer's.
pub fn backing_from(w: &[u64], at: usize, k: usize) -> TimerBacking
    requires { k ≤ 13 }
    ensures { result ≡ backing_of (get_or w.now (at + k) 0) (get_or w.now (at + (k + 1)) 0) (get_or w.now (at + (k + 2)) 0) (get_or w.now (at + (k + 3)) 0) }
{
    images::backing_of(
        words::get_in(w, at, k),
        words::get_in(w, at, k + 1),
        words::get_in(w, at, k + 2),
        words::get_in(w, at, k + 3),
    )
}

fn phase_at(w: &[u64], at: usize) -> DpcPhase
    ensures { result ≡ phase_at w.now at }
{
    match words::get_in(w, at, layout::PHASE) {
        IDLE => DpcPhase::Idle,
        QUEUED => DpcPhase::Queued(work_at(w, at)),
        RUNNING => DpcPhase::Running(work_at(w, at)),
        _ => DpcPhase::Returning(work_at(w, at)),
    }
}

// The DPC at place `at`.
#[tactic(auto, unfolding(crate::specs::Record::dpc_at, crate::specs::Record::backing_at))]
pub fn read_dpc(w: &[u64], at: usize) -> Dpc
    ensures { result ≡ dpc_at w.now at }
{
    Dpc {
        address: words::get(w, at),
        architecture: images::architecture_of(words::get_in(w, at, layout::DPC_ARCHITECTURE)),
        backing: backing_from(w, at, layout::DPC_BACKING),
        routine: words::get_in(w, at, layout::ROUTINE),
        context: words::get_in(w, at, layout::CONTEXT),
        phase: phase_at(w, at),
    }
}
