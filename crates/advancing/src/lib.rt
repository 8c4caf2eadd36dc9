// The passing of time: timers expire, then wakes by objects, then timeouts by thread number.
#![tactic(auto)]

ghost use Rattle.std.specs.Prelude.{◌≡◌};
ghost use Rattle.answers.specs.Errors.{done};
ghost use Rattle.answers.specs.Outcome.{outcome};
ghost use Rattle.advancing.specs.Advance.{overdue, expired, expired_all, advanced};

use answers::error::SchedulerError;
use chains::ready;
use words::layout;

// Whether the thread waits with a deadline at or before `time`.
#[tactic(auto, unfolding(crate::specs::Advance::overdue))]
fn is_overdue(w: &[u64], id: u64, time: u64) -> bool
    ensures { result ≡ overdue w.now id time }
{
    let at = layout::thread_at(id);
    words::get_in(w, at, layout::STATE) == threads::WAITING
        && words::get_in(w, at, layout::HAS_DEADLINE) != 0
        && words::get_in(w, at, layout::DEADLINE) <= time
}

// The thread timed out if its deadline has been reached.
#[tactic(auto, unfolding(crate::specs::Advance::expired))]
fn expire(w: &mut [u64], id: u64, time: u64)
    ensures { w.new ≡ expired w.old id time }
{
    if is_overdue(w, id, time) {
        ready::waiters_chain().remove(w, id);
        wakes::make_ready(w, id, threads::TIMEOUT);
    }
}

fn expire_all(w: &mut [u64], time: u64)
    ensures { w.new ≡ expired_all w.old time }
{
    for i in 0..threads::count(w) {
        expire(w, i + 1, time);
    }
}

// Expires timers, sets the time, wakes by objects, then times out deadlines.
#[tactic(auto, unfolding(crate::specs::Advance::advanced))]
pub fn advance_to(w: &mut [u64], time: u64) -> Result<(), SchedulerError>
    ensures { outcome (done result) w.new ≡ advanced w.old time }
{
    if time < words::get(w, layout::NOW) {
        return Err(SchedulerError::TimeGoesBack);
    }
    expiry_advance::expire_timers(w, time)?;
    words::put(w, layout::NOW, time);
    wakes::wake(w);
    expire_all(w, time);
    Ok(())
}
