// The DPCs in form: each record's numbers, its address, its work and its timer; and how many have a phase.
ghost use Rattle.std.specs.Prelude.{◌≡◌};
ghost use Rattle.form_dpc.specs.Place.{Risen};
ghost use Rattle.form_dpc.specs.Dpc.{dpc_placed, names_no_timer, origin_passes, work_passes, dpc_numbers, address_at, sequence_given, named_rightly, dpc_passes_at, dpcs_seen, has_phase};

use super::timer;
use dpcs::record;
pub use dpcs::record::{IDLE, QUEUED, RETURNING, RUNNING};
use words::layout;

#[tactic(auto, unfolding(crate::specs::Dpc::dpc_placed))]
fn location_passes(w: &[u64], at: usize) -> bool
    ensures { result ≡ dpc_placed w.now at }
{
    let a = images::architecture_of(words::get_in(w, at, layout::DPC_ARCHITECTURE));
    super::location_passes(w, at, layout::DPC_ARCHITECTURE, images::dpc_size(a))
}

// Whether the words of a timer that put work into the queue name none.
#[tactic(auto, unfolding(crate::specs::Dpc::names_no_timer))]
fn names_no_timer(w: &[u64], at: usize) -> bool
    ensures { result ≡ names_no_timer w.now at }
{
    words::get_in(w, at, layout::ORIGIN_TIMER) == 0
        && words::get_in(w, at, layout::ORIGIN_ARM) == 0
        && words::get_in(w, at, layout::ORIGIN_INITIALIZATION) == 0
        && words::get_in(w, at, layout::ORIGIN_DEADLINE) == 0
        && words::get_in(w, at, layout::ORIGIN_OBSERVED) == 0
        && words::get_in(w, at, layout::ORIGIN_PERIODIC) == 0
}

// Words that say nothing hold 0: the timer's words of work that no timer put into the queue.
#[tactic(auto, unfolding(crate::specs::Dpc::origin_passes))]
fn origin_passes(w: &[u64], at: usize) -> bool
    ensures { result ≡ origin_passes w.now at }
{
    words::get_in(w, at, layout::ORIGIN) != 0 || names_no_timer(w, at)
}

// The flags of its work and its origin, which say nothing while the DPC is idle.
#[tactic(auto, unfolding(crate::specs::Dpc::work_passes, crate::specs::Dpc::has_phase))]
fn work_passes(w: &[u64], at: usize) -> bool
    ensures { result ≡ work_passes w.now at }
{
    if has_phase(w, at, IDLE) {
        return true;
    }
    words::get_in(w, at, layout::ORIGIN) <= 1
        && origin_passes(w, at)
        && words::get_in(w, at, layout::ORIGIN_PERIODIC) <= 1
}

// Document 01: stored numbers pass their checks, of a DPC. No location has the address 0.
#[tactic(auto, unfolding(crate::specs::Dpc::dpc_numbers))]
fn numbers_pass(w: &[u64], at: usize) -> bool
    ensures { result ≡ dpc_numbers w.now at }
{
    words::get_in(w, at, layout::PHASE) <= RETURNING && location_passes(w, at) && work_passes(w, at)
}

// Document 01: no key stands twice, of a DPC: neither in its own table nor in that of the objects, of which `j` have keys below its
// address.
#[tactic(auto, unfolding(crate::specs::Dpc::address_at))]
fn address_stands_once(w: &[u64], base: usize, i: u64, j: u64) -> bool
    ensures { result ≡ address_at w.now base i j }
{
    super::key_rises(w, base, i)
        && (words::get(w, layout::OBJECTS) <= j
            || tables::key_at(w, objects::objects_base(w), j) != tables::key_at(w, base, i))
}

// Document 01: no queued or active work bears a sequence not yet given. They are given from 1 on, one an acceptance.
#[tactic(auto, unfolding(crate::specs::Dpc::sequence_given, crate::specs::Dpc::has_phase))]
fn sequence_is_given(w: &[u64], at: usize) -> bool
    ensures { result ≡ sequence_given w.now at }
{
    if has_phase(w, at, IDLE) {
        return true;
    }
    let sequence = words::get_in(w, at, layout::WORK_SEQUENCE);
    sequence != 0 && sequence <= words::get(w, layout::ACCEPTED)
}

// Whom a DPC says it serves is an inserted timer that has it.
#[tactic(auto, unfolding(crate::specs::Dpc::named_rightly))]
fn is_named_rightly(w: &[u64], at: usize) -> bool
    ensures { result ≡ named_rightly w.now at }
{
    let key = words::get_in(w, at, layout::NAMED_BY);
    key == 0
        || objects::place_of(w, objects::TIMER, key).is_some_and(|place| timer::has_dpc(
            w,
            place,
            words::get(w, at),
        ))
}

#[tactic(auto, unfolding(crate::specs::Dpc::dpc_passes_at))]
fn dpc_passes(w: &[u64], base: usize, i: u64, j: u64) -> bool
    ensures { result ≡ dpc_passes_at w.now base i j }
{
    let at = layout::entry_at(base, i);
    numbers_pass(w, at)
        && address_stands_once(w, base, i, j)
        && sequence_is_given(w, at)
        && is_named_rightly(w, at)
}

#[tactic(auto, unfolding(crate::specs::Dpc::has_phase))]
pub fn has_phase(w: &[u64], at: usize, phase: u64) -> bool
    ensures { result ≡ has_phase w.now at phase }
{
    words::get_in(w, at, layout::PHASE) == phase
}

// How many DPCs are queued, how many active (running or returning), and how many returning.
#[derive(Clone, Copy)]
pub struct Counts {
    pub queued: u64,
    pub active: u64,
    pub returning: u64,
}

// The one pass of the DPCs: each is tested and counted. None where one does not pass. The objects' keys, which rise, are gone
// along beside the addresses.
pub fn dpcs_pass(w: &[u64]) -> Option<Counts>
    requires { Risen w.now }
    ensures { result ≡ dpcs_seen w.now }
{
    let base = objects::dpcs_base(w);
    let others = objects::objects_base(w);
    let n = words::get(w, layout::OBJECTS);
    let mut j: u64 = 0;
    let mut queued: u64 = 0;
    let mut running: u64 = 0;
    let mut returning: u64 = 0;
    let count = record::count(w);
    for i in 0..count {
        j = super::past(w, others, n, j, tables::key_at(w, base, i));
        if !dpc_passes(w, base, i, j) {
            return None;
        }
        let at = layout::entry_at(base, i);
        queued += u64::from(has_phase(w, at, QUEUED));
        running += u64::from(has_phase(w, at, RUNNING));
        returning += u64::from(has_phase(w, at, RETURNING));
    }
    Some(Counts {
        queued,
        active: running + returning,
        returning,
    })
}
