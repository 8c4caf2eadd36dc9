// The current thread, mutexes and events.
ghost use Rattle.std.specs.Prelude.{◌≡◌};
ghost use Rattle.model.specs.Call as call;
ghost use Rattle.calls.specs.Guard as kind;
ghost use Rattle.exports.specs.SchedulerAnswer.{given};
ghost use Rattle.exports.specs.RecordCall.{read_by};
ghost use Rattle.unchecked.specs.Unchecked.{unchecked};

use exports::scheduler_answer::answer;

#[unsafe(no_mangle)]
pub extern "C" fn unchecked_current(words: &[u64], out: &mut [u64]) -> u64
    ensures { given result words.now out.new ≡ read_by kind.plain words.now out.old (unchecked words.now (call.Reads call.Current)) }
{
    answer(out, || threading::current(words))
}

#[unsafe(no_mangle)]
pub extern "C" fn unchecked_mutex_owner(words: &[u64], key: u64, out: &mut [u64]) -> u64
    ensures { given result words.now out.new ≡ read_by kind.plain words.now out.old (unchecked words.now (call.Reads (call.MutexOwner key))) }
{
    answer(out, || mutexes::mutex_owner(words, key))
}

#[unsafe(no_mangle)]
pub extern "C" fn unchecked_mutex_waiters(words: &[u64], key: u64, out: &mut [u64]) -> u64
    ensures { given result words.now out.new ≡ read_by kind.plain words.now out.old (unchecked words.now (call.Reads (call.MutexWaiters key))) }
{
    answer(out, || mutexes::mutex_waiters(words, key))
}

#[unsafe(no_mangle)]
pub extern "C" fn unchecked_event_state(words: &[u64], key: u64, out: &mut [u64]) -> u64
    ensures { given result words.now out.new ≡ read_by kind.plain words.now out.old (unchecked words.now (call.Reads (call.EventState key))) }
{
    answer(out, || events::event_state(words, key))
}

#[unsafe(no_mangle)]
pub extern "C" fn unchecked_event_states(words: &[u64], position: u64, out: &mut [u64]) -> u64
    ensures { given result words.now out.new ≡ read_by kind.plain words.now out.old (unchecked words.now (call.Reads (call.EventStates position))) }
{
    answer(out, || event_release::event_states(words, position))
}

#[unsafe(no_mangle)]
pub extern "C" fn unchecked_require_event_release(
    words: &[u64],
    base: u64,
    size: u64,
    layout: u64,
    out: &mut [u64],
) -> u64
    ensures { given result words.now out.new ≡ read_by kind.plain words.now out.old (unchecked words.now (call.Reads (call.RequireEventRelease base size layout))) }
{
    answer(
        out,
        || event_release::require_event_release(words, base, size, layout),
    )
}
