// Threads, mutexes, events, waits, time and dispatch.
ghost use Rattle.std.specs.Prelude.{◌≡◌, length};
ghost use Rattle.model.specs.Call as call;
ghost use Rattle.calls.specs.Called.{optional};
ghost use Rattle.exports.specs.SchedulerAnswer.{truth, given, changed_by, given_all};
ghost use Rattle.raw_exports.specs.Dispatch.{dispatched_by};
ghost use Rattle.unchecked.specs.Unchecked.{unchecked};

use exports::scheduler_answer::change;

#[unsafe(no_mangle)]
pub extern "C" fn unchecked_create_thread(words: &mut [u64], priority: u64, out: &mut [u64]) -> u64
    ensures { given result words.new out.new ≡ changed_by words.old out.old (unchecked words.old (call.CreateThread priority)) }
{
    raw_exports::changes::raw_create_thread(words, priority, out)
}

#[unsafe(no_mangle)]
pub extern "C" fn unchecked_priority(
    words: &mut [u64],
    id: u64,
    priority: u64,
    out: &mut [u64],
) -> u64
    ensures { given result words.new out.new ≡ changed_by words.old out.old (unchecked words.old (call.Priority id priority)) }
{
    raw_exports::changes::raw_priority(words, id, priority, out)
}

#[unsafe(no_mangle)]
pub extern "C" fn unchecked_yield_current(words: &mut [u64], out: &mut [u64]) -> u64
    ensures { given result words.new out.new ≡ changed_by words.old out.old (unchecked words.old call.YieldCurrent) }
{
    raw_exports::changes::raw_yield_current(words, out)
}

#[unsafe(no_mangle)]
pub extern "C" fn unchecked_terminate(words: &mut [u64], status: u32, out: &mut [u64]) -> u64
    ensures { given result words.new out.new ≡ changed_by words.old out.old (unchecked words.old (call.Terminate status)) }
{
    raw_exports::changes::raw_terminate(words, status, out)
}

#[unsafe(no_mangle)]
pub extern "C" fn unchecked_initialize_mutex(words: &mut [u64], key: u64, out: &mut [u64]) -> u64
    ensures { given result words.new out.new ≡ changed_by words.old out.old (unchecked words.old (call.InitializeMutex key)) }
{
    raw_exports::changes::raw_initialize_mutex(words, key, out)
}

#[unsafe(no_mangle)]
pub extern "C" fn unchecked_adopt_mutex(
    words: &mut [u64],
    key: u64,
    owned: u64,
    owner: u64,
    out: &mut [u64],
) -> u64
    ensures { given result words.new out.new ≡ changed_by words.old out.old (unchecked words.old (call.AdoptMutex key (optional (truth owned) owner))) }
{
    change(
        words,
        out,
        |w| unchecked::adopt_mutex(w, key, (owned != 0).then_some(owner)),
    )
}

#[unsafe(no_mangle)]
pub extern "C" fn unchecked_release_mutex(words: &mut [u64], key: u64, out: &mut [u64]) -> u64
    ensures { given result words.new out.new ≡ changed_by words.old out.old (unchecked words.old (call.ReleaseMutex key)) }
{
    raw_exports::changes::raw_release_mutex(words, key, out)
}

#[unsafe(no_mangle)]
pub extern "C" fn unchecked_initialize_event(
    words: &mut [u64],
    key: u64,
    manual: u64,
    signaled: u64,
    out: &mut [u64],
) -> u64
    ensures { given result words.new out.new ≡ changed_by words.old out.old (unchecked words.old (call.InitializeEvent key (truth manual) (truth signaled))) }
{
    raw_exports::changes::raw_initialize_event(words, key, manual, signaled, out)
}

#[unsafe(no_mangle)]
pub extern "C" fn unchecked_set_event(words: &mut [u64], key: u64, out: &mut [u64]) -> u64
    ensures { given result words.new out.new ≡ changed_by words.old out.old (unchecked words.old (call.SetEvent key)) }
{
    raw_exports::changes::raw_set_event(words, key, out)
}

#[unsafe(no_mangle)]
pub extern "C" fn unchecked_reset_event(words: &mut [u64], key: u64, out: &mut [u64]) -> u64
    ensures { given result words.new out.new ≡ changed_by words.old out.old (unchecked words.old (call.ResetEvent key)) }
{
    raw_exports::changes::raw_reset_event(words, key, out)
}

#[unsafe(no_mangle)]
pub extern "C" fn unchecked_retire_event_backing(
    words: &mut [u64],
    base: u64,
    size: u64,
    layout: u64,
    out: &mut [u64],
) -> u64
    ensures { given result words.new out.new ≡ changed_by words.old out.old (unchecked words.old (call.RetireEventBacking base size layout)) }
{
    raw_exports::changes::raw_retire_event_backing(words, base, size, layout, out)
}

#[unsafe(no_mangle)]
pub extern "C" fn unchecked_delay_until(
    words: &mut [u64],
    deadline: u64,
    irql: u8,
    out: &mut [u64],
) -> u64
    ensures { given result words.new out.new ≡ changed_by words.old out.old (unchecked words.old (call.DelayUntil deadline irql)) }
{
    raw_exports::changes::raw_delay_until(words, deadline, irql, out)
}

#[unsafe(no_mangle)]
pub extern "C" fn unchecked_advance_to(words: &mut [u64], time: u64, out: &mut [u64]) -> u64
    ensures { given result words.new out.new ≡ changed_by words.old out.old (unchecked words.old (call.AdvanceTo time)) }
{
    raw_exports::changes::raw_advance_to(words, time, out)
}

#[unsafe(no_mangle)]
pub extern "C" fn unchecked_wait(
    words: &mut [u64],
    list: &[u64],
    all: u64,
    timed: u64,
    deadline: u64,
    irql: u8,
    out: &mut [u64],
) -> u64
    ensures { given result words.new out.new ≡ changed_by words.old out.old (unchecked words.old (call.Wait list.now (truth all) (optional (truth timed) deadline) irql)) }
{
    change(
        words,
        out,
        |w| unchecked::wait(w, list, all != 0, (timed != 0).then_some(deadline), irql),
    )
}

#[unsafe(no_mangle)]
pub extern "C" fn unchecked_dispatch(words: &mut [u64], waiting: &mut [u64], out: &mut [u64]) -> u64
    ensures { given_all result words.new waiting.new out.new ≡ dispatched_by words.old waiting.old out.old (unchecked words.old (call.Dispatch (length waiting.old)) waiting.old) }
{
    raw_exports::changes::raw_dispatch(words, waiting, out)
}
