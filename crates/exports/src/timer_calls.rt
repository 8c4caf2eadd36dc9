// The calls on timers, and the making of DPCs. An architecture is 0 for x64, any other number for x86; a backing is 0 for an image, any
// other number for pool, and then its base, its size (of a pool: the bytes asked for) and the bytes mapped. A call that answers a timer
// wants an `out` of 24 words, else it is refused with 27; for any other see `scheduler_calls`.
ghost use Rattle.std.specs.Prelude.{◌≡◌};
ghost use Rattle.model.specs.Call as call;
ghost use Rattle.calls.specs.Called.{called};
ghost use Rattle.calls.specs.Guard as kind;
ghost use Rattle.images.specs.Place.{architecture_of, backing_of};
ghost use Rattle.exports.specs.SchedulerAnswer.{truth, given, changed_by};
ghost use Rattle.exports.specs.RecordCall.{read_by};

use super::record_answer::timer_answer;
use super::scheduler_answer::{answer, change};

#[unsafe(no_mangle)]
pub extern "C" fn scheduler_initialize_timer(
    words: &mut [u64],
    address: u64,
    architecture: u64,
    backing: u64,
    base: u64,
    size: u64,
    mapped: u64,
    manual: u64,
    out: &mut [u64],
) -> u64
    ensures { given result words.new out.new ≡ changed_by words.old out.old (called words.old (call.InitializeTimer address (architecture_of architecture) (backing_of backing base size mapped) (truth manual))) }
{
    let a = images::architecture_of(architecture);
    let b = images::backing_of(backing, base, size, mapped);
    change(
        words,
        out,
        |w| scheduler::timer_calls::initialize_timer(w, address, a, b, manual != 0),
    )
}

#[unsafe(no_mangle)]
pub extern "C" fn scheduler_initialize_dpc(
    words: &mut [u64],
    address: u64,
    architecture: u64,
    backing: u64,
    base: u64,
    size: u64,
    mapped: u64,
    routine: u64,
    context: u64,
    out: &mut [u64],
) -> u64
    ensures { given result words.new out.new ≡ changed_by words.old out.old (called words.old (call.InitializeDpc address (architecture_of architecture) (backing_of backing base size mapped) routine context)) }
{
    let a = images::architecture_of(architecture);
    let b = images::backing_of(backing, base, size, mapped);
    change(
        words,
        out,
        |w| scheduler::timer_calls::initialize_dpc(w, address, a, b, routine, context),
    )
}

#[unsafe(no_mangle)]
pub extern "C" fn scheduler_set_timer(
    words: &mut [u64],
    address: u64,
    due: u64,
    absolute: u64,
    period: i32,
    dpc: u64,
    out: &mut [u64],
) -> u64
    ensures { given result words.new out.new ≡ changed_by words.old out.old (called words.old (call.SetTimer address due (truth absolute) period dpc)) }
{
    change(
        words,
        out,
        |w| scheduler::timer_calls::set_timer(w, address, due, absolute != 0, period, dpc),
    )
}

// A due of -d is d ticks from now; a due that is not negative is a time.
#[unsafe(no_mangle)]
pub extern "C" fn scheduler_set_timer_signed(
    words: &mut [u64],
    address: u64,
    due: i64,
    period: i32,
    dpc: u64,
    out: &mut [u64],
) -> u64
    ensures { given result words.new out.new ≡ changed_by words.old out.old (called words.old (call.SetTimerSigned address due period dpc)) }
{
    change(
        words,
        out,
        |w| scheduler::timer_calls::set_timer_signed(w, address, due, period, dpc),
    )
}

#[unsafe(no_mangle)]
pub extern "C" fn scheduler_cancel_timer(words: &mut [u64], address: u64, out: &mut [u64]) -> u64
    ensures { given result words.new out.new ≡ changed_by words.old out.old (called words.old (call.CancelTimer address)) }
{
    change(
        words,
        out,
        |w| scheduler::timer_calls::cancel_timer(w, address),
    )
}

#[unsafe(no_mangle)]
pub extern "C" fn scheduler_retire_timer_backing(
    words: &mut [u64],
    address: u64,
    size: u64,
    out: &mut [u64],
) -> u64
    ensures { given result words.new out.new ≡ changed_by words.old out.old (called words.old (call.RetireTimerBacking address size)) }
{
    change(
        words,
        out,
        |w| scheduler::timer_calls::retire_timer_backing(w, address, size),
    )
}

#[unsafe(no_mangle)]
pub extern "C" fn scheduler_require_timer_release(
    words: &[u64],
    address: u64,
    size: u64,
    out: &mut [u64],
) -> u64
    ensures { given result words.now out.new ≡ read_by kind.plain words.now out.old (called words.now (call.Reads (call.RequireTimerRelease address size))) }
{
    answer(
        out,
        || scheduler::timer_calls::require_timer_release(words, address, size),
    )
}

#[unsafe(no_mangle)]
pub extern "C" fn scheduler_timer_initializations(words: &[u64], out: &mut [u64]) -> u64
    ensures { given result words.now out.new ≡ read_by kind.plain words.now out.old (called words.now (call.Reads call.TimerInitializations)) }
{
    answer(out, || scheduler::timer_calls::timer_initializations(words))
}

#[unsafe(no_mangle)]
pub extern "C" fn scheduler_timer_read_overlap(
    words: &[u64],
    address: u64,
    size: u64,
    out: &mut [u64],
) -> u64
    ensures { given result words.now out.new ≡ read_by kind.plain words.now out.old (called words.now (call.Reads (call.TimerReadOverlap address size))) }
{
    answer(
        out,
        || scheduler::timer_calls::timer_read_overlap(words, address, size),
    )
}

#[unsafe(no_mangle)]
pub extern "C" fn scheduler_timer_metadata_overlap(
    words: &[u64],
    address: u64,
    size: u64,
    out: &mut [u64],
) -> u64
    ensures { given result words.now out.new ≡ read_by kind.plain words.now out.old (called words.now (call.Reads (call.TimerMetadataOverlap address size))) }
{
    answer(
        out,
        || scheduler::timer_calls::timer_metadata_overlap(words, address, size),
    )
}

#[unsafe(no_mangle)]
pub extern "C" fn scheduler_timer(words: &[u64], address: u64, out: &mut [u64]) -> u64
    ensures { given result words.now out.new ≡ read_by kind.timers words.now out.old (called words.now (call.Reads (call.TimerAt address))) }
{
    timer_answer(
        out,
        || scheduler::timer_calls::timer(words, address).map(Some),
    )
}

#[unsafe(no_mangle)]
pub extern "C" fn scheduler_timers(words: &[u64], position: u64, out: &mut [u64]) -> u64
    ensures { given result words.now out.new ≡ read_by kind.timers words.now out.old (called words.now (call.Reads (call.Timers position))) }
{
    timer_answer(out, || scheduler::timer_calls::timers(words, position))
}

#[unsafe(no_mangle)]
pub extern "C" fn scheduler_pending_timer_dpc(words: &[u64], out: &mut [u64]) -> u64
    ensures { given result words.now out.new ≡ read_by kind.timers words.now out.old (called words.now (call.Reads call.PendingTimerDpc)) }
{
    timer_answer(out, || scheduler::timer_calls::pending_timer_dpc(words))
}
