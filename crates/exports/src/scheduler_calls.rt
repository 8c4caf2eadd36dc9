// The scheduler's calls over numbers and slices. Each answers 0, or the number of its refusal, and writes its answer to `out`: a tag, and the
// answer's values behind it (`scheduler_answer`). An `out` under four words is refused with 27, before all else. A truth value is a
// number, 0 for no.
ghost use Rattle.std.specs.Prelude.{◌≡◌, length};
ghost use Rattle.model.specs.Call as call;
ghost use Rattle.calls.specs.Called.{called, optional};
ghost use Rattle.calls.specs.Guard as kind;
ghost use Rattle.opening.specs.Open as opening;
ghost use Rattle.exports.specs.SchedulerAnswer.{truth, given, changed_by, dispatched_by, given_all};
ghost use Rattle.exports.specs.RecordCall.{read_by};

use super::scheduler_answer::{answer, change, put_answer};
use answers::error::SchedulerError;

#[unsafe(no_mangle)]
pub extern "C" fn scheduler_create_thread(words: &mut [u64], priority: u64, out: &mut [u64]) -> u64
    ensures { given result words.new out.new ≡ changed_by words.old out.old (called words.old (call.CreateThread priority)) }
{
    change(
        words,
        out,
        |w| scheduler::changes::create_thread(w, priority),
    )
}

#[unsafe(no_mangle)]
pub extern "C" fn scheduler_priority(
    words: &mut [u64],
    id: u64,
    priority: u64,
    out: &mut [u64],
) -> u64
    ensures { given result words.new out.new ≡ changed_by words.old out.old (called words.old (call.Priority id priority)) }
{
    change(
        words,
        out,
        |w| scheduler::changes::priority(w, id, priority),
    )
}

#[unsafe(no_mangle)]
pub extern "C" fn scheduler_yield_current(words: &mut [u64], out: &mut [u64]) -> u64
    ensures { given result words.new out.new ≡ changed_by words.old out.old (called words.old call.YieldCurrent) }
{
    change(words, out, |w| scheduler::changes::yield_current(w))
}

#[unsafe(no_mangle)]
pub extern "C" fn scheduler_terminate(words: &mut [u64], status: u32, out: &mut [u64]) -> u64
    ensures { given result words.new out.new ≡ changed_by words.old out.old (called words.old (call.Terminate status)) }
{
    change(words, out, |w| scheduler::changes::terminate(w, status))
}

#[unsafe(no_mangle)]
pub extern "C" fn scheduler_initialize_mutex(words: &mut [u64], key: u64, out: &mut [u64]) -> u64
    ensures { given result words.new out.new ≡ changed_by words.old out.old (called words.old (call.InitializeMutex key)) }
{
    change(words, out, |w| scheduler::changes::initialize_mutex(w, key))
}

#[unsafe(no_mangle)]
pub extern "C" fn scheduler_adopt_mutex(
    words: &mut [u64],
    key: u64,
    owned: u64,
    owner: u64,
    out: &mut [u64],
) -> u64
    ensures { given result words.new out.new ≡ changed_by words.old out.old (called words.old (call.AdoptMutex key (optional (truth owned) owner))) }
{
    change(
        words,
        out,
        |w| scheduler::changes::adopt_mutex(w, key, (owned != 0).then_some(owner)),
    )
}

#[unsafe(no_mangle)]
pub extern "C" fn scheduler_release_mutex(words: &mut [u64], key: u64, out: &mut [u64]) -> u64
    ensures { given result words.new out.new ≡ changed_by words.old out.old (called words.old (call.ReleaseMutex key)) }
{
    change(words, out, |w| scheduler::changes::release_mutex(w, key))
}

#[unsafe(no_mangle)]
pub extern "C" fn scheduler_initialize_event(
    words: &mut [u64],
    key: u64,
    manual: u64,
    signaled: u64,
    out: &mut [u64],
) -> u64
    ensures { given result words.new out.new ≡ changed_by words.old out.old (called words.old (call.InitializeEvent key (truth manual) (truth signaled))) }
{
    change(
        words,
        out,
        |w| scheduler::changes::initialize_event(w, key, manual != 0, signaled != 0),
    )
}

#[unsafe(no_mangle)]
pub extern "C" fn scheduler_set_event(words: &mut [u64], key: u64, out: &mut [u64]) -> u64
    ensures { given result words.new out.new ≡ changed_by words.old out.old (called words.old (call.SetEvent key)) }
{
    change(words, out, |w| scheduler::changes::set_event(w, key))
}

#[unsafe(no_mangle)]
pub extern "C" fn scheduler_reset_event(words: &mut [u64], key: u64, out: &mut [u64]) -> u64
    ensures { given result words.new out.new ≡ changed_by words.old out.old (called words.old (call.ResetEvent key)) }
{
    change(words, out, |w| scheduler::changes::reset_event(w, key))
}

#[unsafe(no_mangle)]
pub extern "C" fn scheduler_retire_event_backing(
    words: &mut [u64],
    base: u64,
    size: u64,
    layout: u64,
    out: &mut [u64],
) -> u64
    ensures { given result words.new out.new ≡ changed_by words.old out.old (called words.old (call.RetireEventBacking base size layout)) }
{
    change(
        words,
        out,
        |w| scheduler::changes::retire_event_backing(w, base, size, layout),
    )
}

#[unsafe(no_mangle)]
pub extern "C" fn scheduler_delay_until(
    words: &mut [u64],
    deadline: u64,
    irql: u8,
    out: &mut [u64],
) -> u64
    ensures { given result words.new out.new ≡ changed_by words.old out.old (called words.old (call.DelayUntil deadline irql)) }
{
    change(
        words,
        out,
        |w| scheduler::changes::delay_until(w, deadline, irql),
    )
}

#[unsafe(no_mangle)]
pub extern "C" fn scheduler_advance_to(words: &mut [u64], time: u64, out: &mut [u64]) -> u64
    ensures { given result words.new out.new ≡ changed_by words.old out.old (called words.old (call.AdvanceTo time)) }
{
    change(words, out, |w| scheduler::changes::advance_to(w, time))
}

#[unsafe(no_mangle)]
pub extern "C" fn scheduler_current(words: &[u64], out: &mut [u64]) -> u64
    ensures { given result words.now out.new ≡ read_by kind.plain words.now out.old (called words.now (call.Reads call.Current)) }
{
    answer(out, || scheduler::reads::current(words))
}

#[unsafe(no_mangle)]
pub extern "C" fn scheduler_mutex_owner(words: &[u64], key: u64, out: &mut [u64]) -> u64
    ensures { given result words.now out.new ≡ read_by kind.plain words.now out.old (called words.now (call.Reads (call.MutexOwner key))) }
{
    answer(out, || scheduler::reads::mutex_owner(words, key))
}

#[unsafe(no_mangle)]
pub extern "C" fn scheduler_mutex_waiters(words: &[u64], key: u64, out: &mut [u64]) -> u64
    ensures { given result words.now out.new ≡ read_by kind.plain words.now out.old (called words.now (call.Reads (call.MutexWaiters key))) }
{
    answer(out, || scheduler::reads::mutex_waiters(words, key))
}

#[unsafe(no_mangle)]
pub extern "C" fn scheduler_event_state(words: &[u64], key: u64, out: &mut [u64]) -> u64
    ensures { given result words.now out.new ≡ read_by kind.plain words.now out.old (called words.now (call.Reads (call.EventState key))) }
{
    answer(out, || scheduler::reads::event_state(words, key))
}

#[unsafe(no_mangle)]
pub extern "C" fn scheduler_event_states(words: &[u64], position: u64, out: &mut [u64]) -> u64
    ensures { given result words.now out.new ≡ read_by kind.plain words.now out.old (called words.now (call.Reads (call.EventStates position))) }
{
    answer(out, || scheduler::reads::event_states(words, position))
}

#[unsafe(no_mangle)]
pub extern "C" fn scheduler_require_event_release(
    words: &[u64],
    base: u64,
    size: u64,
    layout: u64,
    out: &mut [u64],
) -> u64
    ensures { given result words.now out.new ≡ read_by kind.plain words.now out.old (called words.now (call.Reads (call.RequireEventRelease base size layout))) }
{
    answer(
        out,
        || scheduler::reads::require_event_release(words, base, size, layout),
    )
}

#[unsafe(no_mangle)]
pub extern "C" fn scheduler_words_needed(
    threads: u64,
    objects: u64,
    dpcs: u64,
    out: &mut [u64],
) -> u64
    ensures { given result out.old out.new ≡ read_by kind.plain out.old out.old (opening.sized threads objects dpcs) }
{
    answer(out, || opening::words_needed(threads, objects, dpcs))
}

#[unsafe(no_mangle)]
pub extern "C" fn scheduler_open(
    words: &mut [u64],
    priority: u64,
    threads: u64,
    objects: u64,
    dpcs: u64,
    out: &mut [u64],
) -> u64
    ensures { given result words.new out.new ≡ changed_by words.old out.old (called words.old (call.Open (length words.old) priority threads objects dpcs)) }
{
    change(
        words,
        out,
        |w| scheduler::changes::open(w, priority, threads, objects, dpcs),
    )
}

#[unsafe(no_mangle)]
pub extern "C" fn scheduler_wait(
    words: &mut [u64],
    list: &[u64],
    all: u64,
    timed: u64,
    deadline: u64,
    irql: u8,
    out: &mut [u64],
) -> u64
    ensures { given result words.new out.new ≡ changed_by words.old out.old (called words.old (call.Wait list.now (truth all) (optional (truth timed) deadline) irql)) }
{
    change(
        words,
        out,
        |w| scheduler::changes::wait(w, list, all != 0, (timed != 0).then_some(deadline), irql),
    )
}

// Not by `change`: a dispatch has a second output, and so a definition of its own. `raw_exports` has the only other like it.
#[unsafe(no_mangle)]
pub extern "C" fn scheduler_dispatch(words: &mut [u64], waiting: &mut [u64], out: &mut [u64]) -> u64
    ensures { given_all result words.new waiting.new out.new ≡ dispatched_by words.old waiting.old out.old }
{
    if out.len() < 4 {
        return SchedulerError::OutOfForm.number();
    }
    let answer = scheduler::changes::dispatch(words, waiting);
    put_answer(out, answer.into())
}
