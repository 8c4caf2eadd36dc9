// Timers: made, set, cancelled, given back, and read. DPCs are made here too.
ghost use Rattle.std.specs.Prelude.{◌≡◌};
ghost use Rattle.model.specs.Call as call;
ghost use Rattle.calls.specs.Called.{called};
ghost use Rattle.answers.specs.Outcome.{outcome};
ghost use Rattle.timers.specs.Reads as read;
ghost use Rattle.answers.specs.declared.Answer.TheVariants as answer;
ghost use Rattle.answers.specs.Errors.{done, answer_of, told_by};
ghost use Rattle.timers.specs.TimerAnswer as timer;

use answers::error::SchedulerError;
use arch::Architecture;
use images::{Timer, TimerBacking};

pub fn initialize_timer(
    w: &mut [u64],
    address: u64,
    architecture: Architecture,
    backing: TimerBacking,
    manual_reset: bool,
) -> Result<(), SchedulerError>
    ensures { outcome (done result) w.new ≡ called w.old (call.InitializeTimer address architecture backing manual_reset) }
{
    form::check(w)?;
    timers::initialize::initialize_timer(w, address, architecture, backing, manual_reset)
}

pub fn initialize_dpc(
    w: &mut [u64],
    address: u64,
    architecture: Architecture,
    backing: TimerBacking,
    routine: u64,
    context: u64,
) -> Result<(), SchedulerError>
    ensures { outcome (done result) w.new ≡ called w.old (call.InitializeDpc address architecture backing routine context) }
{
    form::check(w)?;
    timers::initialize::initialize_dpc(w, address, architecture, backing, routine, context)
}

pub fn set_timer(
    w: &mut [u64],
    address: u64,
    due: u64,
    absolute: bool,
    period: i32,
    dpc: u64,
) -> Result<bool, SchedulerError>
    ensures { outcome (answer_of answer.Flag result) w.new ≡ called w.old (call.SetTimer address due absolute period dpc) }
{
    form::check(w)?;
    arming::set_timer(w, address, due, absolute, period, dpc)
}

// A due of -d is d ticks from now; a due that is not negative is a time.
pub fn set_timer_signed(
    w: &mut [u64],
    address: u64,
    due: i64,
    period: i32,
    dpc: u64,
) -> Result<bool, SchedulerError>
    ensures { outcome (answer_of answer.Flag result) w.new ≡ called w.old (call.SetTimerSigned address due period dpc) }
{
    form::check(w)?;
    arming::set_timer_signed(w, address, due, period, dpc)
}

pub fn cancel_timer(w: &mut [u64], address: u64) -> Result<bool, SchedulerError>
    ensures { outcome (answer_of answer.Flag result) w.new ≡ called w.old (call.CancelTimer address) }
{
    form::check(w)?;
    arming::cancel_timer(w, address)
}

pub fn retire_timer_backing(w: &mut [u64], address: u64, size: u64) -> Result<(), SchedulerError>
    ensures { outcome (done result) w.new ≡ called w.old (call.RetireTimerBacking address size) }
{
    form::check(w)?;
    timers::release::retire_timer_backing(w, address, size)
}

pub fn require_timer_release(w: &[u64], address: u64, size: u64) -> Result<(), SchedulerError>
    ensures { done result ≡ called w.now (call.Reads (call.RequireTimerRelease address size)) }
{
    form::check(w)?;
    timers::release::require_timer_release(w, address, size)
}

pub fn timer_initializations(w: &[u64]) -> Result<u64, SchedulerError>
    ensures { answer_of answer.Count result ≡ called w.now (call.Reads call.TimerInitializations) }
{
    form::check(w)?;
    Ok(timers::reads::timer_initializations(w))
}

pub fn timer_read_overlap(w: &[u64], address: u64, size: u64) -> Result<bool, SchedulerError>
    ensures { answer_of answer.Flag result ≡ called w.now (call.Reads (call.TimerReadOverlap address size)) }
{
    form::check(w)?;
    Ok(timers::reads::timer_read_overlap(w, address, size))
}

pub fn timer_metadata_overlap(w: &[u64], address: u64, size: u64) -> Result<bool, SchedulerError>
    ensures { answer_of answer.Flag result ≡ called w.now (call.Reads (call.TimerMetadataOverlap address size)) }
{
    form::check(w)?;
    Ok(timers::reads::timer_metadata_overlap(w, address, size))
}

pub fn timer(w: &[u64], address: u64) -> Result<Timer, SchedulerError>
    ensures { read.known result ≡ called w.now (call.Reads (call.TimerAt address)) }
{
    form::check(w)?;
    timers::reads::timer(w, address)
}

// The timer at a position in the order of the keys, from 0 on.
pub fn timers(w: &[u64], position: u64) -> Result<Option<Timer>, SchedulerError>
    ensures { told_by read.told timer.Refused result ≡ called w.now (call.Reads (call.Timers position)) }
{
    form::check(w)?;
    Ok(timers::reads::timers_at(w, position))
}

// The first inserted timer that has a DPC.
pub fn pending_timer_dpc(w: &[u64]) -> Result<Option<Timer>, SchedulerError>
    ensures { told_by read.told timer.Refused result ≡ called w.now (call.Reads call.PendingTimerDpc) }
{
    form::check(w)?;
    Ok(timers::reads::pending_timer_dpc(w))
}
