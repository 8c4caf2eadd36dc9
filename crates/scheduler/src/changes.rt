// The calls that change the words.
ghost use Rattle.std.specs.Prelude.{◌≡◌, length, is_some, unwrap_or};
ghost use Rattle.model.specs.Call as call;
ghost use Rattle.calls.specs.Called.{called, optional};
ghost use Rattle.answers.specs.Outcome.{outcome};
ghost use Rattle.dispatcher.specs.Dispatch as dispatch;
ghost use Rattle.answers.specs.declared.Answer.TheVariants as answer;
ghost use Rattle.answers.specs.Errors.{done, thread, answer_of};
ghost use Rattle.dispatcher.specs.Dispatched as dispatched;
ghost use Rattle.waiting.specs.Wait as waiting;

use answers::ThreadId;
use answers::error::SchedulerError;
use dispatcher::outcome::Dispatch;
use waiting::WaitOutcome;

// A scheduler with thread 1 running at `priority`, and the rest empty or 0; on any words that are enough for the limits.
pub fn open(w: &mut [u64], priority: u64, t: u64, o: u64, d: u64) -> Result<(), SchedulerError>
    ensures { outcome (done result) w.new ≡ called w.old (call.Open (length w.old) priority t o d) }
{
    opening::open(w, priority, t, o, d)
}

pub fn create_thread(w: &mut [u64], priority: u64) -> Result<ThreadId, SchedulerError>
    ensures { outcome (answer_of thread result) w.new ≡ called w.old (call.CreateThread priority) }
{
    form::check(w)?;
    threading::create_thread(w, priority)
}

pub fn priority(w: &mut [u64], id: u64, priority: u64) -> Result<(), SchedulerError>
    ensures { outcome (done result) w.new ≡ called w.old (call.Priority id priority) }
{
    form::check(w)?;
    threading::priority(w, id, priority)
}

pub fn yield_current(w: &mut [u64]) -> Result<(), SchedulerError>
    ensures { outcome (done result) w.new ≡ called w.old call.YieldCurrent }
{
    form::check(w)?;
    threading::yield_current(w)
}

pub fn terminate(w: &mut [u64], status: u32) -> Result<(), SchedulerError>
    ensures { outcome (done result) w.new ≡ called w.old (call.Terminate status) }
{
    form::check(w)?;
    threading::terminate(w, status)
}

pub fn initialize_mutex(w: &mut [u64], key: u64) -> Result<(), SchedulerError>
    ensures { outcome (done result) w.new ≡ called w.old (call.InitializeMutex key) }
{
    form::check(w)?;
    mutexes::initialize_mutex(w, key)
}

#[tactic(auto, using(calls::proofs::Absent::adopts_given), unfolding(calls::specs::Called::called, calls::specs::Guard::guarded, form::specs::Form::checked))]
pub fn adopt_mutex(w: &mut [u64], key: u64, owner: Option<u64>) -> Result<(), SchedulerError>
    ensures { outcome (done result) w.new ≡ called w.old (call.AdoptMutex key (optional (is_some owner) (unwrap_or owner 0))) }
{
    form::check(w)?;
    mutexes::adopt_mutex(w, key, owner)
}

pub fn release_mutex(w: &mut [u64], key: u64) -> Result<(), SchedulerError>
    ensures { outcome (done result) w.new ≡ called w.old (call.ReleaseMutex key) }
{
    form::check(w)?;
    mutexes::release_mutex(w, key)
}

pub fn initialize_event(
    w: &mut [u64],
    key: u64,
    manual: bool,
    signaled: bool,
) -> Result<(), SchedulerError>
    ensures { outcome (done result) w.new ≡ called w.old (call.InitializeEvent key manual signaled) }
{
    form::check(w)?;
    events::initialize_event(w, key, manual, signaled)
}

pub fn set_event(w: &mut [u64], key: u64) -> Result<bool, SchedulerError>
    ensures { outcome (answer_of answer.Flag result) w.new ≡ called w.old (call.SetEvent key) }
{
    form::check(w)?;
    events::set_event(w, key)
}

pub fn reset_event(w: &mut [u64], key: u64) -> Result<bool, SchedulerError>
    ensures { outcome (answer_of answer.Flag result) w.new ≡ called w.old (call.ResetEvent key) }
{
    form::check(w)?;
    events::reset_event(w, key)
}

pub fn retire_event_backing(
    w: &mut [u64],
    base: u64,
    size: u64,
    layout: u64,
) -> Result<(), SchedulerError>
    ensures { outcome (done result) w.new ≡ called w.old (call.RetireEventBacking base size layout) }
{
    form::check(w)?;
    event_release::retire_event_backing(w, base, size, layout)
}

pub fn delay_until(w: &mut [u64], deadline: u64, irql: u8) -> Result<WaitOutcome, SchedulerError>
    ensures { outcome (answer_of waiting.told result) w.new ≡ called w.old (call.DelayUntil deadline irql) }
{
    form::check(w)?;
    waiting::delay_until(w, deadline, irql)
}

pub fn advance_to(w: &mut [u64], time: u64) -> Result<(), SchedulerError>
    ensures { outcome (done result) w.new ≡ called w.old (call.AdvanceTo time) }
{
    form::check(w)?;
    advancing::advance_to(w, time)
}

#[tactic(auto, using(calls::proofs::Absent::waits_given), unfolding(calls::specs::Called::called, calls::specs::Guard::guarded, form::specs::Form::checked))]
pub fn wait(
    w: &mut [u64],
    list: &[u64],
    all: bool,
    deadline: Option<u64>,
    irql: u8,
) -> Result<WaitOutcome, SchedulerError>
    ensures { outcome (answer_of waiting.told result) w.new ≡ called w.old (call.Wait list.now all (optional (is_some deadline) (unwrap_or deadline 0)) irql) }
{
    form::check(w)?;
    waiting::wait(
        w,
        list,
        all,
        deadline.is_some(),
        deadline.unwrap_or(0),
        irql,
    )
}

pub fn dispatch(w: &mut [u64], out: &mut [u64]) -> Result<Dispatch, SchedulerError>
    ensures { dispatch.told (answer_of dispatched.answered result) w.new out.new ≡ called w.old (call.Dispatch (length out.old)) out.old }
{
    form::check(w)?;
    dispatcher::dispatch::dispatch(w, out)
}
