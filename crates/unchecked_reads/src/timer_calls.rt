// What is read of timers.
ghost use Rattle.std.specs.Prelude.{◌≡◌};
ghost use Rattle.model.specs.Call as call;
ghost use Rattle.calls.specs.Guard as kind;
ghost use Rattle.exports.specs.SchedulerAnswer.{given};
ghost use Rattle.exports.specs.RecordCall.{read_by};
ghost use Rattle.unchecked.specs.Unchecked.{unchecked};

use exports::record_answer::timer_answer;
use exports::scheduler_answer::answer;

#[unsafe(no_mangle)]
pub extern "C" fn unchecked_require_timer_release(
    words: &[u64],
    address: u64,
    size: u64,
    out: &mut [u64],
) -> u64
    ensures { given result words.now out.new ≡ read_by kind.plain words.now out.old (unchecked words.now (call.Reads (call.RequireTimerRelease address size))) }
{
    answer(
        out,
        || timers::release::require_timer_release(words, address, size),
    )
}

#[unsafe(no_mangle)]
pub extern "C" fn unchecked_timer_initializations(words: &[u64], out: &mut [u64]) -> u64
    ensures { given result words.now out.new ≡ read_by kind.plain words.now out.old (unchecked words.now (call.Reads call.TimerInitializations)) }
{
    answer(out, || timers::reads::timer_initializations(words))
}

#[unsafe(no_mangle)]
pub extern "C" fn unchecked_timer_read_overlap(
    words: &[u64],
    address: u64,
    size: u64,
    out: &mut [u64],
) -> u64
    ensures { given result words.now out.new ≡ read_by kind.plain words.now out.old (unchecked words.now (call.Reads (call.TimerReadOverlap address size))) }
{
    answer(
        out,
        || timers::reads::timer_read_overlap(words, address, size),
    )
}

#[unsafe(no_mangle)]
pub extern "C" fn unchecked_timer_metadata_overlap(
    words: &[u64],
    address: u64,
    size: u64,
    out: &mut [u64],
) -> u64
    ensures { given result words.now out.new ≡ read_by kind.plain words.now out.old (unchecked words.now (call.Reads (call.TimerMetadataOverlap address size))) }
{
    answer(
        out,
        || timers::reads::timer_metadata_overlap(words, address, size),
    )
}

#[unsafe(no_mangle)]
pub extern "C" fn unchecked_timer(words: &[u64], address: u64, out: &mut [u64]) -> u64
    ensures { given result words.now out.new ≡ read_by kind.timers words.now out.old (unchecked words.now (call.Reads (call.TimerAt address))) }
{
    timer_answer(out, || timers::reads::timer(words, address).map(Some))
}

#[unsafe(no_mangle)]
pub extern "C" fn unchecked_timers(words: &[u64], position: u64, out: &mut [u64]) -> u64
    ensures { given result words.now out.new ≡ read_by kind.timers words.now out.old (unchecked words.now (call.Reads (call.Timers position))) }
{
    timer_answer(out, || Ok(timers::reads::timers_at(words, position)))
}

#[unsafe(no_mangle)]
pub extern "C" fn unchecked_pending_timer_dpc(words: &[u64], out: &mut [u64]) -> u64
    ensures { given result words.now out.new ≡ read_by kind.timers words.now out.old (unchecked words.now (call.Reads call.PendingTimerDpc)) }
{
    timer_answer(out, || Ok(timers::reads::pending_timer_dpc(words)))
}
