// The current thread, mutexes and events.
ghost use Rattle.std.specs.Prelude.{◌≡◌};
ghost use Rattle.model.specs.Call as call;
ghost use Rattle.calls.specs.Guard as kind;
ghost use Rattle.exports.specs.SchedulerAnswer.{given};
ghost use Rattle.exports.specs.RecordCall.{read_by};
ghost use Rattle.unchecked.specs.Unchecked.{unchecked};

#[unsafe(no_mangle)]
pub extern "C" fn unchecked_current(words: &[u64], out: &mut [u64]) -> u64
    ensures { given result words.now out.new ≡ read_by kind.plain words.now out.old (unchecked words.now (call.Reads call.Current)) }
{
    unchecked_reads::object_calls::unchecked_current(words, out)
}

#[unsafe(no_mangle)]
pub extern "C" fn unchecked_mutex_owner(words: &[u64], key: u64, out: &mut [u64]) -> u64
    ensures { given result words.now out.new ≡ read_by kind.plain words.now out.old (unchecked words.now (call.Reads (call.MutexOwner key))) }
{
    unchecked_reads::object_calls::unchecked_mutex_owner(words, key, out)
}

#[unsafe(no_mangle)]
pub extern "C" fn unchecked_mutex_waiters(words: &[u64], key: u64, out: &mut [u64]) -> u64
    ensures { given result words.now out.new ≡ read_by kind.plain words.now out.old (unchecked words.now (call.Reads (call.MutexWaiters key))) }
{
    unchecked_reads::object_calls::unchecked_mutex_waiters(words, key, out)
}

#[unsafe(no_mangle)]
pub extern "C" fn unchecked_event_state(words: &[u64], key: u64, out: &mut [u64]) -> u64
    ensures { given result words.now out.new ≡ read_by kind.plain words.now out.old (unchecked words.now (call.Reads (call.EventState key))) }
{
    unchecked_reads::object_calls::unchecked_event_state(words, key, out)
}

#[unsafe(no_mangle)]
pub extern "C" fn unchecked_event_states(words: &[u64], position: u64, out: &mut [u64]) -> u64
    ensures { given result words.now out.new ≡ read_by kind.plain words.now out.old (unchecked words.now (call.Reads (call.EventStates position))) }
{
    unchecked_reads::object_calls::unchecked_event_states(words, position, out)
}

#[unsafe(no_mangle)]
pub extern "C" fn unchecked_require_event_release(
    words: &[u64],
    base: u64,
    size: u64,
    layout: u64,
    out: &mut [u64],
) -> u64
    ensures { given result words.now out.new ≡ read_by kind.plain words.now out.old (unchecked words.now (call.Reads (call.RequireEventRelease base size layout))) }
{
    unchecked_reads::object_calls::unchecked_require_event_release(words, base, size, layout, out)
}
