// Timers, and the making of DPCs.
ghost use Rattle.std.specs.Prelude.{◌≡◌};
ghost use Rattle.model.specs.Call as call;
ghost use Rattle.images.specs.Place.{architecture_of};
ghost use Rattle.backings.specs.Lent.{lent_backing};
ghost use Rattle.exports.specs.SchedulerAnswer.{truth, given, changed_by};
ghost use Rattle.unchecked.specs.Unchecked.{unchecked};

use exports::scheduler_answer::change;

#[unsafe(no_mangle)]
pub extern "C" fn unchecked_initialize_timer(
    words: &mut [u64],
    address: u64,
    architecture: u64,
    backing: u64,
    base: u64,
    size: u64,
    mapped: u64,
    manual: u64,
    out: &mut [u64],
) -> u64
    ensures { given result words.new out.new ≡ changed_by words.old out.old (unchecked words.old (call.InitializeTimer address (architecture_of architecture) (lent_backing architecture backing base size mapped) (truth manual))) }
{
    let a = images::architecture_of(architecture);
    let b = backings::lent_backing(architecture, backing, base, size, mapped);
    change(
        words,
        out,
        |w| timers::initialize::initialize_timer(w, address, a, b, manual != 0),
    )
}

#[unsafe(no_mangle)]
pub extern "C" fn unchecked_initialize_dpc(
    words: &mut [u64],
    address: u64,
    architecture: u64,
    backing: u64,
    base: u64,
    size: u64,
    mapped: u64,
    routine: u64,
    context: u64,
    out: &mut [u64],
) -> u64
    ensures { given result words.new out.new ≡ changed_by words.old out.old (unchecked words.old (call.InitializeDpc address (architecture_of architecture) (lent_backing architecture backing base size mapped) routine context)) }
{
    let a = images::architecture_of(architecture);
    let b = backings::lent_backing(architecture, backing, base, size, mapped);
    change(
        words,
        out,
        |w| timers::initialize::initialize_dpc(w, address, a, b, routine, context),
    )
}

#[unsafe(no_mangle)]
pub extern "C" fn unchecked_set_timer(
    words: &mut [u64],
    address: u64,
    due: u64,
    absolute: u64,
    period: i32,
    dpc: u64,
    out: &mut [u64],
) -> u64
    ensures { given result words.new out.new ≡ changed_by words.old out.old (unchecked words.old (call.SetTimer address due (truth absolute) period dpc)) }
{
    raw_exports::timer_calls::raw_set_timer(words, address, due, absolute, period, dpc, out)
}

// A due of -d is d ticks from now; a due that is not negative is a time.
#[unsafe(no_mangle)]
pub extern "C" fn unchecked_set_timer_signed(
    words: &mut [u64],
    address: u64,
    due: i64,
    period: i32,
    dpc: u64,
    out: &mut [u64],
) -> u64
    ensures { given result words.new out.new ≡ changed_by words.old out.old (unchecked words.old (call.SetTimerSigned address due period dpc)) }
{
    change(
        words,
        out,
        |w| arming::set_timer_signed(w, address, due, period, dpc),
    )
}

#[unsafe(no_mangle)]
pub extern "C" fn unchecked_cancel_timer(words: &mut [u64], address: u64, out: &mut [u64]) -> u64
    ensures { given result words.new out.new ≡ changed_by words.old out.old (unchecked words.old (call.CancelTimer address)) }
{
    raw_exports::timer_calls::raw_cancel_timer(words, address, out)
}

#[unsafe(no_mangle)]
pub extern "C" fn unchecked_retire_timer_backing(
    words: &mut [u64],
    address: u64,
    size: u64,
    out: &mut [u64],
) -> u64
    ensures { given result words.new out.new ≡ changed_by words.old out.old (unchecked words.old (call.RetireTimerBacking address size)) }
{
    raw_exports::timer_calls::raw_retire_timer_backing(words, address, size, out)
}
