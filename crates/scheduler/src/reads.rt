// The calls that read the words.
ghost use Rattle.std.specs.Prelude.{◌≡◌};
ghost use Rattle.model.specs.Call as call;
ghost use Rattle.calls.specs.Called.{called};
ghost use Rattle.answers.specs.declared.Answer.TheVariants as answer;
ghost use Rattle.answers.specs.Errors.{done, thread_or_none, answer_of};
ghost use Rattle.events.specs.Events as events;

use answers::ThreadId;
use answers::error::SchedulerError;
use events::Event;

pub fn current(w: &[u64]) -> Result<Option<ThreadId>, SchedulerError>
    ensures { answer_of thread_or_none result ≡ called w.now (call.Reads call.Current) }
{
    form::check(w)?;
    Ok(threading::current(w))
}

pub fn mutex_owner(w: &[u64], key: u64) -> Result<Option<ThreadId>, SchedulerError>
    ensures { answer_of thread_or_none result ≡ called w.now (call.Reads (call.MutexOwner key)) }
{
    form::check(w)?;
    mutexes::mutex_owner(w, key)
}

pub fn mutex_waiters(w: &[u64], key: u64) -> Result<u64, SchedulerError>
    ensures { answer_of answer.Count result ≡ called w.now (call.Reads (call.MutexWaiters key)) }
{
    form::check(w)?;
    Ok(mutexes::mutex_waiters(w, key))
}

pub fn event_state(w: &[u64], key: u64) -> Result<Option<Event>, SchedulerError>
    ensures { answer_of events.told result ≡ called w.now (call.Reads (call.EventState key)) }
{
    form::check(w)?;
    Ok(events::event_state(w, key))
}

pub fn event_states(w: &[u64], position: u64) -> Result<Option<Event>, SchedulerError>
    ensures { answer_of events.told result ≡ called w.now (call.Reads (call.EventStates position)) }
{
    form::check(w)?;
    Ok(event_release::event_states(w, position))
}

pub fn require_event_release(
    w: &[u64],
    base: u64,
    size: u64,
    layout: u64,
) -> Result<(), SchedulerError>
    ensures { done result ≡ called w.now (call.Reads (call.RequireEventRelease base size layout)) }
{
    form::check(w)?;
    event_release::require_event_release(w, base, size, layout)
}
