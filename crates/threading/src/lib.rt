// The calls on threads. They are total: words out of form get an answer too, if no useful one.
#![tactic(auto)]

ghost use Rattle.std.specs.Prelude.{◌≡◌, get_or};
ghost use Rattle.words.specs.Layout as at;
ghost use Rattle.answers.specs.declared.Answer.TheVariants as answer;
ghost use Rattle.answers.specs.Errors.{refusal, thread_or_none, answer_of, done};
ghost use Rattle.answers.specs.Outcome.{outcome};
ghost use Rattle.threading.specs.Thread.{numbered, current_answer, create_refusal, created_thread, created, priority_refusal, with_priority, moved, prioritized, yielded_words, yielded, owner_at, owns_mutex, terminate_refusal, exited_words, terminated};

use answers::ThreadId;
use answers::error::SchedulerError;
use chains::ready;
use threads::Thread;
use waits::object;
use words::layout;

// The thread that runs, if one does.
#[tactic(auto, unfolding(crate::specs::Thread::current_answer))]
pub fn current(w: &[u64]) -> Option<ThreadId>
    ensures thread { result ≡ numbered (get_or w.now at.current 0) }
    ensures answer { thread_or_none result ≡ current_answer w.now }
{
    let id = words::get(w, layout::CURRENT);
    (id != 0).then_some(ThreadId(id))
}

#[tactic(auto, unfolding(crate::specs::Thread::create_refusal))]
fn check_create(w: &[u64], priority: u64) -> Result<(), SchedulerError>
    ensures { refusal result ≡ create_refusal w.now priority }
{
    if opening::is_bad_priority(priority) {
        return Err(SchedulerError::InvalidPriority);
    }
    let limit = words::get(w, layout::THREAD_LIMIT);
    if limit <= words::get(w, layout::THREADS) {
        return Err(SchedulerError::Full);
    }
    Ok(())
}

// Thread `id` ready for the first time.
#[tactic(auto, unfolding(crate::specs::Thread::created_thread, threads::specs::Thread::no_wait))]
fn add_thread(w: &mut [u64], id: u64, priority: u64)
    ensures { w.new ≡ created_thread w.old id priority }
{
    words::put(w, layout::THREADS, id);
    threads::write_wait(w, id, threads::no_wait());
    threads::write_thread(
        w,
        id,
        Thread {
            priority,
            state: threads::READY,
            result: threads::NO_RESULT,
            status: 0,
        },
    );
    ready::place(w, priority, id);
}

// A new thread, placed last in its priority's queue.
#[tactic(auto, unfolding(crate::specs::Thread::created))]
pub fn create_thread(w: &mut [u64], priority: u64) -> Result<ThreadId, SchedulerError>
    ensures { outcome (answer_of (λ id. answer.Thread id.0) result) w.new ≡ created w.old priority }
{
    check_create(w, priority)?;
    let id = words::get(w, layout::THREADS).wrapping_add(1);
    add_thread(w, id, priority);
    Ok(ThreadId(id))
}

#[tactic(auto, unfolding(crate::specs::Thread::priority_refusal))]
fn check_priority(w: &[u64], id: u64, priority: u64) -> Result<(), SchedulerError>
    ensures { refusal result ≡ priority_refusal w.now id priority }
{
    if opening::is_bad_priority(priority) {
        return Err(SchedulerError::InvalidPriority);
    }
    if !threads::is_known(w, id) {
        return Err(SchedulerError::Unknown);
    }
    if object::is_exited(w, id) {
        return Err(SchedulerError::Exited);
    }
    Ok(())
}

// A thread with another priority; a ready one is placed last, even at the same.
#[tactic(auto, unfolding(crate::specs::Thread::moved, crate::specs::Thread::with_priority))]
fn change_priority(w: &mut [u64], id: u64, priority: u64)
    ensures { w.new ≡ moved w.old id priority }
{
    let t = threads::read_thread(w, id);
    let changed = Thread { priority, ..t };
    if t.state == threads::READY {
        ready::unplace(w, t.priority, id);
        threads::write_thread(w, id, changed);
        ready::place(w, priority, id);
    } else {
        threads::write_thread(w, id, changed);
    }
}

#[tactic(auto, unfolding(crate::specs::Thread::prioritized))]
pub fn priority(w: &mut [u64], id: u64, priority: u64) -> Result<(), SchedulerError>
    ensures { outcome (done result) w.new ≡ prioritized w.old id priority }
{
    check_priority(w, id, priority)?;
    change_priority(w, id, priority);
    Ok(())
}

// The current thread placed last in its queue; none is current.
#[tactic(auto, unfolding(crate::specs::Thread::yielded_words))]
fn leave(w: &mut [u64], id: u64)
    ensures { w.new ≡ yielded_words w.old id }
{
    let t = threads::read_thread(w, id);
    words::put(w, layout::CURRENT, 0);
    wakes::make_ready(w, id, t.result);
}

#[tactic(auto, unfolding(crate::specs::Thread::yielded))]
pub fn yield_current(w: &mut [u64]) -> Result<(), SchedulerError>
    ensures { outcome (done result) w.new ≡ yielded w.old }
{
    let ThreadId(id) = current(w).ok_or(SchedulerError::NoCurrentThread)?;
    leave(w, id);
    Ok(())
}

// Whether the object at place `i` is a mutex that the thread owns.
#[tactic(auto, unfolding(crate::specs::Thread::owner_at))]
fn is_owner_at(w: &[u64], base: usize, i: u64, id: u64) -> bool
    ensures { result ≡ owner_at w.now base i id }
{
    let at = layout::entry_at(base, i);
    words::get_in(w, at, layout::KIND) == objects::MUTEX
        && words::get_in(w, at, layout::OWNER) == id
}

// Whether the thread owns a mutex. Proved by `any_from_walk`, as every walk of a table with a test.
fn owns_mutex(w: &[u64], id: u64) -> bool
    ensures { result ≡ owns_mutex w.now id }
{
    let base = objects::objects_base(w);
    (0..objects::count(w)).any(|i| is_owner_at(w, base, i, id))
}

// The current thread, which owns no mutex.
#[tactic(auto, unfolding(crate::specs::Thread::terminate_refusal))]
fn check_terminate(w: &[u64]) -> Result<(), SchedulerError>
    ensures { refusal result ≡ terminate_refusal w.now }
{
    let ThreadId(id) = current(w).ok_or(SchedulerError::NoCurrentThread)?;
    if owns_mutex(w, id) {
        return Err(SchedulerError::NotOwner);
    }
    Ok(())
}

// The thread exited; none is current.
#[tactic(auto, unfolding(crate::specs::Thread::exited_words))]
fn exit(w: &mut [u64], id: u64, status: u64)
    ensures { w.new ≡ exited_words w.old id status }
{
    let t = threads::read_thread(w, id);
    threads::write_thread(
        w,
        id,
        Thread {
            state: threads::EXITED,
            status,
            ..t
        },
    );
    words::put(w, layout::CURRENT, 0);
}

// The current thread exits, and one wake pass runs.
#[tactic(auto, unfolding(crate::specs::Thread::terminated))]
pub fn terminate(w: &mut [u64], status: u32) -> Result<(), SchedulerError>
    ensures { outcome (done result) w.new ≡ terminated w.old status }
{
    check_terminate(w)?;
    let id = words::get(w, layout::CURRENT);
    exit(w, id, u64::from(status));
    wakes::wake(w);
    Ok(())
}
