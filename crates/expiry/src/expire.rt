// What the expiry of due timers does: a timer is signaled, its DPC's work is queued, and it is due again or no longer inserted.
ghost use Rattle.std.specs.Prelude.{◌≡◌};
ghost use Rattle.expiry.specs.Expire.{dpc_of, origin_of, queued_for, work_queued, unnamed, settled, expired_one, expired_list};

use super::next::later_due;
use dpc_queue::Origin;
use dpcs::record;
use words::layout;

// The number of the DPC of the timer at place `at`, if it has one; 0 of one that is not there.
#[tactic(auto, unfolding(crate::specs::Expire::dpc_of))]
pub fn dpc_of(w: &[u64], at: usize) -> Option<u64>
    ensures { result ≡ dpc_of w.now at }
{
    let dpc = words::get_in(w, at, layout::TIMER_DPC);
    if dpc == 0 {
        return None;
    }
    Some(record::number_of(w, dpc).unwrap_or(0))
}

// The work of the timer at place `at`, seen at `time`.
#[tactic(auto, unfolding(crate::specs::Expire::origin_of, crate::specs::Expire::flag))]
fn origin_of(w: &[u64], at: usize, time: u64) -> Origin
    ensures { result ≡ origin_of w.now at time }
{
    Origin {
        timer: 1,
        address: words::get_in(w, at, layout::KEY),
        arm: words::get_in(w, at, layout::ARM),
        initialization: words::get_in(w, at, layout::INITIALIZATION),
        deadline: words::get_in(w, at, layout::DUE),
        observed: time,
        periodic: u64::from(words::get_in(w, at, layout::PERIOD) != 0),
    }
}

// Work put into the queue for DPC `n` if it is idle; else it is a duplicate of the work that is there.
#[tactic(auto, unfolding(crate::specs::Expire::queued_for))]
fn queue_for(w: &mut [u64], n: u64, at: usize, time: u64)
    ensures { w.new ≡ queued_for w.old n at time }
{
    if words::get_in(w, record::place(w, n), layout::PHASE) == dpc_queue::IDLE {
        let first = words::get(w, layout::TIMER_ARGUMENT);
        let second = words::get(w, layout::TIMER_ARGUMENT_2);
        let o = origin_of(w, at, time);
        dpc_queue::accept(w, n, first, second, o);
        return;
    }
    dpc_queue::raise(w, layout::DUPLICATES);
}

#[tactic(auto, unfolding(crate::specs::Expire::work_queued, crate::specs::Expire::dpc_of))]
fn queue_work(w: &mut [u64], at: usize, time: u64)
    ensures { w.new ≡ work_queued w.old at time }
{
    if let Some(n) = dpc_of(w, at) {
        queue_for(w, n, at, time);
    }
}

// The timer's DPC, if it has one, named by no timer.
#[tactic(auto, unfolding(crate::specs::Expire::unnamed, crate::specs::Expire::dpc_of))]
pub fn unname(w: &mut [u64], at: usize)
    ensures { w.new ≡ unnamed w.old at }
{
    if let Some(n) = dpc_of(w, at) {
        let p = record::place(w, n);
        words::put_in(w, p, layout::NAMED_BY, 0);
    }
}

// A periodic timer is due again; another is no longer inserted.
#[tactic(auto, unfolding(crate::specs::Expire::settled))]
fn settle(w: &mut [u64], at: usize, time: u64)
    ensures { w.new ≡ settled w.old at time }
{
    let period = words::get_in(w, at, layout::PERIOD);
    if period == 0 {
        words::put_in(w, at, layout::INSERTED, 0);
        unname(w, at);
        return;
    }
    let due = words::get_in(w, at, layout::DUE);
    words::put_in(w, at, layout::DUE, later_due(due, time, period));
}

#[tactic(auto, unfolding(crate::specs::Expire::expired_one))]
fn expire(w: &mut [u64], at: usize, time: u64)
    ensures { w.new ≡ expired_one w.old at time }
{
    queue_work(w, at, time);
    words::put_in(w, at, layout::SIGNALED, 1);
    settle(w, at, time);
}

// The timers of the list, told by their places in the table, one after another.
pub fn expire_list(w: &mut [u64], base: usize, list: &[u64], time: u64)
    ensures { w.new ≡ expired_list w.old base list.now time }
{
    for i in list {
        expire(w, layout::entry_at(base, *i), time);
    }
}
