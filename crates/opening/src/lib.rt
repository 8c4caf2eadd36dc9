// Opening a scheduler in lent words.
#![tactic(auto)]

ghost use Rattle.std.specs.Prelude.{◌≡◌};
ghost use Rattle.words.specs.Layout as at;
ghost use Rattle.answers.specs.declared.Answer.TheVariants as answer;
ghost use Rattle.answers.specs.Errors.{refusal, answer_of, done};
ghost use Rattle.answers.specs.Outcome.{outcome};
ghost use Rattle.opening.specs.Open.{bad_priority, bad_limits, open_refusal, cleared, limited, started, opened, sized};

use answers::error::SchedulerError;
use words::layout;

// Priorities are 1 to 31.
#[tactic(auto, unfolding(crate::specs::Open::bad_priority))]
pub fn is_bad_priority(p: u64) -> bool
    ensures { result ≡ bad_priority p }
{
    p < 1 || 31 < p
}

// Limits are 1 to 256 threads, and up to 4096 objects and 4096 DPCs.
#[tactic(auto, unfolding(crate::specs::Open::bad_limits))]
pub fn has_bad_limits(t: u64, o: u64, d: u64) -> bool
    ensures { result ≡ bad_limits t o d }
{
    t < 1 || layout::MOST_THREADS < t || 4096 < o || 4096 < d
}

// The words that a scheduler of these limits needs.
#[tactic(auto, unfolding(crate::specs::Open::sized), using(crate::proofs::OpenLaws::limits))]
pub fn words_needed(t: u64, o: u64, d: u64) -> Result<u64, SchedulerError>
    ensures { answer_of answer.Count result ≡ sized t o d }
{
    if has_bad_limits(t, o, d) {
        return Err(SchedulerError::OutOfForm);
    }
    Ok(256 + 160 * t + 32 * (o + d))
}

#[derive(Clone, Copy)]
struct Limits {
    threads: u64,
    objects: u64,
    dpcs: u64,
}

#[tactic(auto, unfolding(crate::specs::Open::open_refusal, crate::specs::Open::sized))]
fn check_open(w: &[u64], priority: u64, limits: Limits) -> Result<(), SchedulerError>
    ensures { refusal result ≡ open_refusal w.now priority limits.threads limits.objects limits.dpcs }
{
    if is_bad_priority(priority) {
        return Err(SchedulerError::InvalidPriority);
    }
    if (w.len() as u64) < words_needed(limits.threads, limits.objects, limits.dpcs)? {
        return Err(SchedulerError::OutOfForm);
    }
    Ok(())
}

// The header's words set to 0.
fn clear(w: &mut [u64])
    ensures { w.new ≡ cleared at.unused w.old }
{
    let n = w.len().min(layout::UNUSED);
    w[..n].fill(0);
}

#[tactic(auto, unfolding(crate::specs::Open::limited))]
fn limit(w: &mut [u64], limits: Limits)
    ensures { w.new ≡ limited w.old limits.threads limits.objects limits.dpcs }
{
    words::put(w, layout::THREAD_LIMIT, limits.threads);
    words::put(w, layout::OBJECT_LIMIT, limits.objects);
    words::put(w, layout::DPC_LIMIT, limits.dpcs);
    words::put(w, layout::THREADS, 1);
    words::put(w, layout::CURRENT, 1);
}

#[tactic(auto, unfolding(crate::specs::Open::started, threads::specs::Thread::no_wait))]
fn start(w: &mut [u64], priority: u64, limits: Limits)
    ensures { w.new ≡ started w.old priority limits.threads limits.objects limits.dpcs }
{
    clear(w);
    limit(w, limits);
    threads::write_wait(w, 1, threads::no_wait());
    threads::write_thread(
        w,
        1,
        threads::Thread {
            priority,
            state: threads::RUNNING,
            result: threads::NO_RESULT,
            status: 0,
        },
    );
}

// A scheduler with thread 1 running at `priority`, and the rest empty or 0.
#[tactic(auto, unfolding(crate::specs::Open::opened))]
pub fn open(w: &mut [u64], priority: u64, t: u64, o: u64, d: u64) -> Result<(), SchedulerError>
    ensures { outcome (done result) w.new ≡ opened w.old priority t o d }
{
    let limits = Limits {
        threads: t,
        objects: o,
        dpcs: d,
    };
    check_open(w, priority, limits)?;
    start(w, priority, limits);
    Ok(())
}
