// Threads, mutexes, events, waits, time and dispatch.
ghost use Rattle.std.specs.Prelude.{◌≡◌, length};
ghost use Rattle.model.specs.Call as call;
ghost use Rattle.calls.specs.Called.{optional};
ghost use Rattle.exports.specs.SchedulerAnswer.{truth, given, changed_by, given_all};
ghost use Rattle.raw_exports.specs.Dispatch.{dispatched_by};
ghost use Rattle.unchecked.specs.Unchecked.{unchecked};

#[unsafe(no_mangle)]
pub extern "C" fn unchecked_create_thread(words: &mut [u64], priority: u64, out: &mut [u64]) -> u64
    ensures { given result words.new out.new ≡ changed_by words.old out.old (unchecked words.old (call.CreateThread priority)) }
{
    unchecked_calls::changes::unchecked_create_thread(words, priority, out)
}

#[unsafe(no_mangle)]
pub extern "C" fn unchecked_priority(
    words: &mut [u64],
    id: u64,
    priority: u64,
    out: &mut [u64],
) -> u64
    ensures { given result words.new out.new ≡ changed_by words.old out.old (unchecked words.old (call.Priority id priority)) }
{
    unchecked_calls::changes::unchecked_priority(words, id, priority, out)
}

#[unsafe(no_mangle)]
pub extern "C" fn unchecked_yield_current(words: &mut [u64], out: &mut [u64]) -> u64
    ensures { given result words.new out.new ≡ changed_by words.old out.old (unchecked words.old call.YieldCurrent) }
{
    unchecked_calls::changes::unchecked_yield_current(words, out)
}

#[unsafe(no_mangle)]
pub extern "C" fn unchecked_terminate(words: &mut [u64], status: u32, out: &mut [u64]) -> u64
    ensures { given result words.new out.new ≡ changed_by words.old out.old (unchecked words.old (call.Terminate status)) }
{
    unchecked_calls::changes::unchecked_terminate(words, status, out)
}

#[unsafe(no_mangle)]
pub extern "C" fn unchecked_initialize_mutex(words: &mut [u64], key: u64, out: &mut [u64]) -> u64
    ensures { given result words.new out.new ≡ changed_by words.old out.old (unchecked words.old (call.InitializeMutex key)) }
{
    unchecked_calls::changes::unchecked_initialize_mutex(words, key, out)
}

#[unsafe(no_mangle)]
pub extern "C" fn unchecked_adopt_mutex(
    words: &mut [u64],
    key: u64,
    owned: u64,
    owner: u64,
    out: &mut [u64],
) -> u64
    ensures { given result words.new out.new ≡ changed_by words.old out.old (unchecked words.old (call.AdoptMutex key (optional (truth owned) owner))) }
{
    unchecked_calls::changes::unchecked_adopt_mutex(words, key, owned, owner, out)
}

#[unsafe(no_mangle)]
pub extern "C" fn unchecked_release_mutex(words: &mut [u64], key: u64, out: &mut [u64]) -> u64
    ensures { given result words.new out.new ≡ changed_by words.old out.old (unchecked words.old (call.ReleaseMutex key)) }
{
    unchecked_calls::changes::unchecked_release_mutex(words, key, out)
}

#[unsafe(no_mangle)]
pub extern "C" fn unchecked_initialize_event(
    words: &mut [u64],
    key: u64,
    manual: u64,
    signaled: u64,
    out: &mut [u64],
) -> u64
    ensures { given result words.new out.new ≡ changed_by words.old out.old (unchecked words.old (call.InitializeEvent key (truth manual) (truth signaled))) }
{
    unchecked_calls::changes::unchecked_initialize_event(words, key, manual, signaled, out)
}

#[unsafe(no_mangle)]
pub extern "C" fn unchecked_set_event(words: &mut [u64], key: u64, out: &mut [u64]) -> u64
    ensures { given result words.new out.new ≡ changed_by words.old out.old (unchecked words.old (call.SetEvent key)) }
{
    unchecked_calls::changes::unchecked_set_event(words, key, out)
}

#[unsafe(no_mangle)]
pub extern "C" fn unchecked_reset_event(words: &mut [u64], key: u64, out: &mut [u64]) -> u64
    ensures { given result words.new out.new ≡ changed_by words.old out.old (unchecked words.old (call.ResetEvent key)) }
{
    unchecked_calls::changes::unchecked_reset_event(words, key, out)
}

#[unsafe(no_mangle)]
pub extern "C" fn unchecked_retire_event_backing(
    words: &mut [u64],
    base: u64,
    size: u64,
    layout: u64,
    out: &mut [u64],
) -> u64
    ensures { given result words.new out.new ≡ changed_by words.old out.old (unchecked words.old (call.RetireEventBacking base size layout)) }
{
    unchecked_calls::changes::unchecked_retire_event_backing(words, base, size, layout, out)
}

#[unsafe(no_mangle)]
pub extern "C" fn unchecked_delay_until(
    words: &mut [u64],
    deadline: u64,
    irql: u8,
    out: &mut [u64],
) -> u64
    ensures { given result words.new out.new ≡ changed_by words.old out.old (unchecked words.old (call.DelayUntil deadline irql)) }
{
    unchecked_calls::changes::unchecked_delay_until(words, deadline, irql, out)
}

#[unsafe(no_mangle)]
pub extern "C" fn unchecked_advance_to(words: &mut [u64], time: u64, out: &mut [u64]) -> u64
    ensures { given result words.new out.new ≡ changed_by words.old out.old (unchecked words.old (call.AdvanceTo time)) }
{
    unchecked_calls::changes::unchecked_advance_to(words, time, out)
}

#[unsafe(no_mangle)]
pub extern "C" fn unchecked_wait(
    words: &mut [u64],
    list: &[u64],
    all: u64,
    timed: u64,
    deadline: u64,
    irql: u8,
    out: &mut [u64],
) -> u64
    ensures { given result words.new out.new ≡ changed_by words.old out.old (unchecked words.old (call.Wait list.now (truth all) (optional (truth timed) deadline) irql)) }
{
    unchecked_calls::changes::unchecked_wait(words, list, all, timed, deadline, irql, out)
}

#[unsafe(no_mangle)]
pub extern "C" fn unchecked_dispatch(words: &mut [u64], waiting: &mut [u64], out: &mut [u64]) -> u64
    ensures { given_all result words.new waiting.new out.new ≡ dispatched_by words.old waiting.old out.old (unchecked words.old (call.Dispatch (length waiting.old)) waiting.old) }
{
    unchecked_calls::changes::unchecked_dispatch(words, waiting, out)
}
