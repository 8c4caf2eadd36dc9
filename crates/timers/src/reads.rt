// What is read of timers. Timers are told in the order of their keys, which is the table's.
ghost use Rattle.std.specs.Prelude.{◌≡◌};
ghost use Rattle.answers.specs.declared.Answer.TheVariants as answer;
ghost use Rattle.objects.specs.Found.{nonzero};
ghost use Rattle.timers.specs.Reads.{told, known, timer_read, nth_timer, timers_at, timer_initializations, is_pending, pending_timer, pending_read, end_of, last_timer, last_dpc, overlaps_timer, overlaps_dpc, read_overlap, metadata_overlap};

use super::record;
use answers::error::SchedulerError;
use images::Timer;
use words::layout;

#[tactic(auto, unfolding(crate::specs::Reads::timer_read))]
pub fn timer(w: &[u64], address: u64) -> Result<Timer, SchedulerError>
    ensures { known result ≡ timer_read w.now address }
{
    let at = objects::place_of(w, objects::TIMER, address).ok_or(SchedulerError::Unknown)?;
    Ok(record::read_timer(w, at))
}

// Where the timer at the position stands.
fn nth_timer(w: &[u64], position: u64) -> Option<usize>
    ensures { result ≡ nonzero (nth_timer w.now position) }
{
    let base = objects::objects_base(w);
    (0..objects::count(w))
        .filter(|&i| record::is_timer(w, layout::entry_at(base, i)))
        .nth(position as usize)
        .map(|i| layout::entry_at(base, i))
}

// The timer at the position, from 0, among the timers by rising key.
#[tactic(auto, unfolding(crate::specs::Reads::timers_at, crate::specs::Reads::timer_answer))]
pub fn timers_at(w: &[u64], position: u64) -> Option<Timer>
    ensures { told result ≡ timers_at w.now position }
{
    let at = nth_timer(w, position)?;
    Some(record::read_timer(w, at))
}

// How many times a timer has been initialized.
#[tactic(auto, unfolding(crate::specs::Reads::timer_initializations))]
pub fn timer_initializations(w: &[u64]) -> u64
    ensures { answer.Count result ≡ timer_initializations w.now }
{
    words::get(w, layout::TIMER_INITIALIZATIONS)
}

// Whether the record is of an inserted timer that has a DPC.
#[tactic(auto, unfolding(crate::specs::Reads::is_pending))]
fn is_pending(w: &[u64], at: usize) -> bool
    ensures { result ≡ is_pending w.now at }
{
    record::is_timer(w, at)
        && record::is_inserted(w, at)
        && words::get_in(w, at, layout::TIMER_DPC) != 0
}

// Where the first such record stands.
fn pending_timer(w: &[u64]) -> Option<usize>
    ensures { result ≡ nonzero (pending_timer w.now) }
{
    let base = objects::objects_base(w);
    (0..objects::count(w))
        .find(|&i| is_pending(w, layout::entry_at(base, i)))
        .map(|i| layout::entry_at(base, i))
}

// The first inserted timer that has a DPC.
#[tactic(auto, unfolding(crate::specs::Reads::pending_read, crate::specs::Reads::timer_answer))]
pub fn pending_timer_dpc(w: &[u64]) -> Option<Timer>
    ensures { told result ≡ pending_read w.now }
{
    let at = pending_timer(w)?;
    Some(record::read_timer(w, at))
}

// The end of `size` bytes at an address, and the largest number where it passes that.
#[tactic(auto, unfolding(crate::specs::Reads::end_of))]
fn end_of(address: u64, size: u64) -> u64
    ensures { result ≡ end_of address size }
{
    address.saturating_add(size)
}

// Where the last timer stands whose key is below `end`.
#[tactic(auto, unfolding(crate::specs::Reads::last_timer))]
fn last_timer(w: &[u64], end: u64) -> Option<usize>
    ensures { result ≡ nonzero (last_timer w.now end) }
{
    let base = objects::objects_base(w);
    let n = tables::find(w, base, objects::count(w), end);
    (0..n)
        .rfind(|&i| record::is_timer(w, layout::entry_at(base, i)))
        .map(|i| layout::entry_at(base, i))
}

// Where the last DPC stands whose address is below `end`.
#[tactic(auto, unfolding(crate::specs::Reads::last_dpc))]
fn last_dpc(w: &[u64], end: u64) -> Option<usize>
    ensures { result ≡ nonzero (last_dpc w.now end) }
{
    let base = objects::dpcs_base(w);
    let n = tables::find(w, base, dpcs::record::count(w), end);
    let i = n.checked_sub(1)?;
    Some(layout::entry_at(base, i))
}

// Whether the last timer that starts before the range's end has a byte of it. Not one function with `overlaps_dpc`: the records are of two
// tables, and the last is found otherwise.
#[tactic(auto, unfolding(crate::specs::Reads::overlaps_timer))]
fn overlaps_timer(w: &[u64], address: u64, size: u64) -> bool
    ensures { result ≡ overlaps_timer w.now address size }
{
    size != 0
        && last_timer(w, end_of(address, size)).is_some_and(|at| record::timer_overlaps(
            w, at, address, size,
        ))
}

// Whether the last DPC that starts before the range's end has a byte of it.
#[tactic(auto, unfolding(crate::specs::Reads::overlaps_dpc, crate::specs::Release::dpc_stands))]
fn overlaps_dpc(w: &[u64], address: u64, size: u64) -> bool
    ensures { result ≡ overlaps_dpc w.now address size }
{
    size != 0
        && last_dpc(w, end_of(address, size)).is_some_and(|at| record::dpc_overlaps(
            w, at, address, size,
        ))
}

#[tactic(auto, unfolding(crate::specs::Reads::read_overlap))]
pub fn timer_read_overlap(w: &[u64], address: u64, size: u64) -> bool
    ensures { answer.Flag result ≡ read_overlap w.now address size }
{
    overlaps_timer(w, address, size)
}

#[tactic(auto, unfolding(crate::specs::Reads::metadata_overlap))]
pub fn timer_metadata_overlap(w: &[u64], address: u64, size: u64) -> bool
    ensures { answer.Flag result ≡ metadata_overlap w.now address size }
{
    overlaps_timer(w, address, size) || overlaps_dpc(w, address, size)
}
