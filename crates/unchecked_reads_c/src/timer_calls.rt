// What is read of timers.
ghost use Rattle.std.specs.Prelude.{◌≡◌};
ghost use Rattle.model.specs.Call as call;
ghost use Rattle.calls.specs.Guard as kind;
ghost use Rattle.exports.specs.SchedulerAnswer.{given};
ghost use Rattle.exports.specs.RecordCall.{read_by};
ghost use Rattle.unchecked.specs.Unchecked.{unchecked};

#[unsafe(no_mangle)]
pub extern "C" fn unchecked_require_timer_release(
    words: &[u64],
    address: u64,
    size: u64,
    out: &mut [u64],
) -> u64
    ensures { given result words.now out.new ≡ read_by kind.plain words.now out.old (unchecked words.now (call.Reads (call.RequireTimerRelease address size))) }
{
    unchecked_reads::timer_calls::unchecked_require_timer_release(words, address, size, out)
}

#[unsafe(no_mangle)]
pub extern "C" fn unchecked_timer_initializations(words: &[u64], out: &mut [u64]) -> u64
    ensures { given result words.now out.new ≡ read_by kind.plain words.now out.old (unchecked words.now (call.Reads call.TimerInitializations)) }
{
    unchecked_reads::timer_calls::unchecked_timer_initializations(words, out)
}

#[unsafe(no_mangle)]
pub extern "C" fn unchecked_timer_read_overlap(
    words: &[u64],
    address: u64,
    size: u64,
    out: &mut [u64],
) -> u64
    ensures { given result words.now out.new ≡ read_by kind.plain words.now out.old (unchecked words.now (call.Reads (call.TimerReadOverlap address size))) }
{
    unchecked_reads::timer_calls::unchecked_timer_read_overlap(words, address, size, out)
}

#[unsafe(no_mangle)]
pub extern "C" fn unchecked_timer_metadata_overlap(
    words: &[u64],
    address: u64,
    size: u64,
    out: &mut [u64],
) -> u64
    ensures { given result words.now out.new ≡ read_by kind.plain words.now out.old (unchecked words.now (call.Reads (call.TimerMetadataOverlap address size))) }
{
    unchecked_reads::timer_calls::unchecked_timer_metadata_overlap(words, address, size, out)
}

#[unsafe(no_mangle)]
pub extern "C" fn unchecked_timer(words: &[u64], address: u64, out: &mut [u64]) -> u64
    ensures { given result words.now out.new ≡ read_by kind.timers words.now out.old (unchecked words.now (call.Reads (call.TimerAt address))) }
{
    unchecked_reads::timer_calls::unchecked_timer(words, address, out)
}

#[unsafe(no_mangle)]
pub extern "C" fn unchecked_timers(words: &[u64], position: u64, out: &mut [u64]) -> u64
    ensures { given result words.now out.new ≡ read_by kind.timers words.now out.old (unchecked words.now (call.Reads (call.Timers position))) }
{
    unchecked_reads::timer_calls::unchecked_timers(words, position, out)
}

#[unsafe(no_mangle)]
pub extern "C" fn unchecked_pending_timer_dpc(words: &[u64], out: &mut [u64]) -> u64
    ensures { given result words.now out.new ≡ read_by kind.timers words.now out.old (unchecked words.now (call.Reads call.PendingTimerDpc)) }
{
    unchecked_reads::timer_calls::unchecked_pending_timer_dpc(words, out)
}
