// What refuses an advance: a pass over the due timers before any store.
ghost use Rattle.std.specs.Prelude.{◌≡◌};
ghost use Rattle.answers.specs.Errors.{refusal};
ghost use Rattle.expiry.specs.Check.{is_own, idle_refusal, queued_refusal, work_refusal, timer_passes, plain_refusal, queuing_refusal, one_refusal, counted_after, counts_at, list_refusal};

use super::expire::dpc_of;
use answers::error::SchedulerError;
use dpcs::record;
use words::layout;

// The counts of accepted and of duplicate work, as an advance would leave them so far.
#[derive(Clone, Copy, Debug, PartialEq, Eq)]
pub struct Counts {
    pub accepted: u64,
    pub duplicates: u64,
}

// Whether the work of the DPC at place `p` is that of the timer at place `at`, of the same arm and initialization.
#[tactic(auto, unfolding(crate::specs::Check::is_own))]
pub fn is_own(w: &[u64], p: usize, at: usize) -> bool
    ensures { result ≡ is_own w.now p at }
{
    words::get_in(w, p, layout::ORIGIN) == 1
        && words::get_in(w, p, layout::ORIGIN_TIMER) == words::get_in(w, at, layout::KEY)
        && words::get_in(w, p, layout::ORIGIN_ARM) == words::get_in(w, at, layout::ARM)
        && words::get_in(w, p, layout::ORIGIN_INITIALIZATION)
            == words::get_in(w, at, layout::INITIALIZATION)
}

// Work for an idle DPC.
#[tactic(auto, unfolding(crate::specs::Check::idle_refusal))]
fn check_idle(c: Counts) -> Result<(), SchedulerError>
    ensures { refusal result ≡ idle_refusal c }
{
    if 65_536 <= c.accepted {
        return Err(SchedulerError::Lifetime);
    }
    Ok(())
}

// Work for a queued DPC, which only the timer's own work passes.
#[tactic(auto, unfolding(crate::specs::Check::queued_refusal))]
fn check_queued(w: &[u64], p: usize, at: usize, c: Counts) -> Result<(), SchedulerError>
    ensures { refusal result ≡ queued_refusal w.now p at c }
{
    if !is_own(w, p, at) {
        return Err(SchedulerError::OtherOrigin);
    }
    if c.duplicates == u64::MAX {
        return Err(SchedulerError::CountOverflow);
    }
    Ok(())
}

// Work for the DPC at place `p`: none where it is running or returning.
#[tactic(auto, unfolding(crate::specs::Check::work_refusal))]
fn check_work(w: &[u64], p: usize, at: usize, c: Counts) -> Result<(), SchedulerError>
    ensures { refusal result ≡ work_refusal w.now p at c }
{
    match words::get_in(w, p, layout::PHASE) {
        dpc_queue::IDLE => check_idle(c),
        dpc_queue::QUEUED => check_queued(w, p, at, c),
        _ => Err(SchedulerError::Busy),
    }
}

// Whether the timer's next due passes 2^64 - 1.
#[tactic(auto, unfolding(crate::specs::Check::timer_passes))]
fn timer_passes(w: &[u64], at: usize, time: u64) -> bool
    ensures { result ≡ timer_passes w.now at time }
{
    super::next::passes(
        words::get_in(w, at, layout::DUE),
        time,
        words::get_in(w, at, layout::PERIOD),
    )
}

// Without a policy no timer with a DPC expires.
#[tactic(auto, unfolding(crate::specs::Check::plain_refusal))]
fn check_plain(w: &[u64], at: usize, time: u64) -> Result<(), SchedulerError>
    ensures { refusal result ≡ plain_refusal w.now at time }
{
    if words::get_in(w, at, layout::TIMER_DPC) != 0 {
        return Err(SchedulerError::Policy);
    }
    if timer_passes(w, at, time) {
        return Err(SchedulerError::DueOverflow);
    }
    Ok(())
}

// With a policy: its next due, then what its work meets.
#[tactic(auto, unfolding(crate::specs::Check::queuing_refusal, crate::specs::Expire::dpc_of))]
fn check_queuing(w: &[u64], at: usize, time: u64, c: Counts) -> Result<(), SchedulerError>
    ensures { refusal result ≡ queuing_refusal w.now at time c }
{
    if timer_passes(w, at, time) {
        return Err(SchedulerError::DueOverflow);
    }
    match dpc_of(w, at) {
        Some(n) => check_work(w, record::place(w, n), at, c),
        None => Ok(()),
    }
}

#[tactic(auto, unfolding(crate::specs::Check::one_refusal))]
fn check_one(w: &[u64], at: usize, time: u64, c: Counts) -> Result<(), SchedulerError>
    ensures { refusal result ≡ one_refusal w.now at time c }
{
    if words::get(w, layout::POLICY) == 0 {
        return check_plain(w, at, time);
    }
    check_queuing(w, at, time, c)
}

// The counts after the expiry of a timer that nothing refuses.
#[tactic(auto, unfolding(crate::specs::Check::counted_after, crate::specs::Expire::dpc_of))]
fn count_after(w: &[u64], at: usize, c: Counts) -> Counts
    ensures { result ≡ counted_after w.now at c }
{
    let Some(n) = dpc_of(w, at) else {
        return c;
    };
    if words::get_in(w, record::place(w, n), layout::PHASE) == dpc_queue::IDLE {
        return Counts {
            accepted: c.accepted.wrapping_add(1),
            ..c
        };
    }
    Counts {
        duplicates: c.duplicates.wrapping_add(1),
        ..c
    }
}

#[tactic(auto, unfolding(crate::specs::Check::counts_at))]
fn counts_at(w: &[u64]) -> Counts
    ensures { result ≡ counts_at w.now }
{
    Counts {
        accepted: words::get(w, layout::ACCEPTED),
        duplicates: words::get(w, layout::DUPLICATES),
    }
}

// The first refusal along the list of timers, told by their places in the table, counting what is accepted and duplicated on the way.
#[tactic(auto, using(crate::proofs::CheckLaws::refusal_end, crate::proofs::CheckLaws::refusal_next), unfolding(crate::specs::Check::list_refusal))]
pub fn check_list(w: &[u64], base: usize, list: &[u64], time: u64) -> Result<(), SchedulerError>
    ensures { refusal result ≡ list_refusal w.now base list.now time }
{
    let mut c = counts_at(w);
    for i in list {
        let at = layout::entry_at(base, *i);
        check_one(w, at, time, c)?;
        c = count_after(w, at, c);
    }
    Ok(())
}
