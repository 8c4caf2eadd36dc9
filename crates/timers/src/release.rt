// Timers and DPCs in memory that the guest gives back. Walks of both tables, one record after another.
ghost use Rattle.std.specs.Prelude.{◌≡◌};
ghost use Rattle.answers.specs.Errors.{done};
ghost use Rattle.answers.specs.Outcome.{outcome};
ghost use Rattle.tables.specs.Compact.{Tells};
ghost use Rattle.timers.specs.Record.{each_in};
ghost use Rattle.timers.specs.Release.{periodic_origin, active_origin, timer_held, timer_stands, is_timer_held, any_timer_held, dpc_held, is_dpc_held, any_dpc_held, timer_release, marked, timers_marked, timers_closed, dpcs_marked, timers_retired};

use super::record;
use answers::error::SchedulerError;
use dpc_table::GONE;
use words::layout;

// ---- require_timer_release

// Whether the work of the DPC at place `at` came from the timer, which is periodic.
#[tactic(auto, unfolding(crate::specs::Release::periodic_origin))]
fn is_periodic_origin(w: &[u64], at: usize, key: u64) -> bool
    ensures { result ≡ periodic_origin w.now at key }
{
    words::get_in(w, at, layout::ORIGIN) == 1
        && words::get_in(w, at, layout::ORIGIN_TIMER) == key
        && words::get_in(w, at, layout::ORIGIN_PERIODIC) != 0
}

// Whether the active work came from the timer, which is periodic.
#[tactic(auto, unfolding(crate::specs::Release::active_origin))]
fn is_active_origin(w: &[u64], key: u64) -> bool
    ensures { result ≡ active_origin w.now key }
{
    let active = words::get(w, layout::ACTIVE);
    active != 0 && objects::find_dpc(w, active).is_some_and(|at| is_periodic_origin(w, at, key))
}

// Whether the object at place `at` is a timer with a byte of the range.
#[tactic(auto, unfolding(crate::specs::Release::timer_stands))]
fn timer_stands(w: &[u64], at: usize, address: u64, size: u64) -> bool
    ensures { result ≡ timer_stands w.now at address size }
{
    record::is_timer(w, at) && record::timer_overlaps(w, at, address, size)
}

// Whether the timer at place `at` cannot go.
#[tactic(auto, unfolding(crate::specs::Release::is_timer_held))]
fn is_timer_held(w: &[u64], at: usize) -> bool
    ensures { result ≡ is_timer_held w.now at }
{
    let key = words::get_in(w, at, layout::KEY);
    record::is_inserted(w, at)
        || wakes::waits_on(w, objects::TIMER, key)
        || is_active_origin(w, key)
}

#[tactic(auto, unfolding(crate::specs::Release::timer_held))]
fn timer_held(w: &[u64], at: usize, address: u64, size: u64) -> bool
    ensures { result ≡ timer_held w.now at address size }
{
    timer_stands(w, at, address, size) && is_timer_held(w, at)
}

// Proved by `any_from_walk`, as every walk of a table with a test.
#[tactic(auto, unfolding(crate::specs::Release::any_timer_held))]
fn any_timer_held(w: &[u64], address: u64, size: u64) -> bool
    ensures { result ≡ any_timer_held w.now address size }
{
    let base = objects::objects_base(w);
    (0..objects::count(w)).any(|i| timer_held(w, layout::entry_at(base, i), address, size))
}

// Whether the DPC at place `at` is busy, or had by an inserted timer.
#[tactic(auto, unfolding(crate::specs::Release::is_dpc_held))]
fn is_dpc_held(w: &[u64], at: usize) -> bool
    ensures { result ≡ is_dpc_held w.now at }
{
    words::get_in(w, at, layout::PHASE) != 0 || words::get_in(w, at, layout::NAMED_BY) != 0
}

#[tactic(auto, unfolding(crate::specs::Release::dpc_held))]
fn dpc_held(w: &[u64], at: usize, address: u64, size: u64) -> bool
    ensures { result ≡ dpc_held w.now at address size }
{
    record::dpc_overlaps(w, at, address, size) && is_dpc_held(w, at)
}

// Proved by `any_from_walk`, as every walk of a table with a test.
#[tactic(auto, unfolding(crate::specs::Release::any_dpc_held))]
fn any_dpc_held(w: &[u64], address: u64, size: u64) -> bool
    ensures { result ≡ any_dpc_held w.now address size }
{
    let base = objects::dpcs_base(w);
    (0..dpcs::record::count(w)).any(|i| dpc_held(w, layout::entry_at(base, i), address, size))
}

// Whether `size` bytes from `address` on may be given back.
#[tactic(auto, unfolding(crate::specs::Release::timer_release, crate::specs::Release::release_refusal))]
pub fn require_timer_release(w: &[u64], address: u64, size: u64) -> Result<(), SchedulerError>
    ensures { done result ≡ timer_release w.now address size }
{
    if any_timer_held(w, address, size) || any_dpc_held(w, address, size) {
        return Err(SchedulerError::NotReleasable);
    }
    Ok(())
}

// ---- retire_timer_backing

// Word `word` of each of the `n` records for which `goes` answers yes at their places is the mark of those that go.
fn mark<F: Fn(&[u64], usize) -> bool>(w: &mut [u64], base: usize, n: u64, word: usize, goes: F)
    requires { F.IsAlwaysCallable goes }
    ensures { (test : _) → Tells (F.post goes) test → w.new ≡ each_in n (marked test word) w.old base 0 }
{
    for i in 0..n {
        let at = layout::entry_at(base, i);
        if goes(w, at) {
            words::put_in(w, at, word, GONE);
        }
    }
}

fn mark_timers(w: &mut [u64], address: u64, size: u64)
    ensures { w.new ≡ timers_marked w.old address size }
{
    let base = objects::objects_base(w);
    let n = objects::count(w);
    mark(w, base, n, layout::KIND, |w, at| {
        timer_stands(w, at, address, size)
    });
}

// The marked objects taken out of the table; the others keep their order.
#[tactic(auto, unfolding(crate::specs::Release::timers_closed))]
fn close_up(w: &mut [u64])
    ensures { w.new ≡ timers_closed w.old }
{
    let base = objects::objects_base(w);
    let n = objects::count(w);
    let left = tables::compact(w, base, n, layout::KIND, GONE);
    words::put(w, layout::OBJECTS, left);
}

fn mark_dpcs(w: &mut [u64], address: u64, size: u64)
    ensures { w.new ≡ dpcs_marked w.old address size }
{
    let base = objects::dpcs_base(w);
    let n = dpcs::record::count(w);
    mark(w, base, n, layout::PHASE, |w, at| {
        record::dpc_overlaps(w, at, address, size)
    });
}

// The memory given back, and its timers and DPCs no more.
#[tactic(auto, unfolding(crate::specs::Release::timers_retired, crate::specs::Release::timer_release))]
pub fn retire_timer_backing(w: &mut [u64], address: u64, size: u64) -> Result<(), SchedulerError>
    ensures { outcome (done result) w.new ≡ timers_retired w.old address size }
{
    require_timer_release(w, address, size)?;
    mark_timers(w, address, size);
    close_up(w);
    mark_dpcs(w, address, size);
    dpc_table::close_up(w);
    Ok(())
}
