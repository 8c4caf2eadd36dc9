// Timers, and the making of DPCs.
ghost use Rattle.std.specs.Prelude.{◌≡◌};
ghost use Rattle.images.specs.Place.{architecture_of, backing_of};
ghost use Rattle.timers.specs.Initialize as initialize;
ghost use Rattle.arming.specs.Arm as arm;
ghost use Rattle.timers.specs.Release as release;
ghost use Rattle.exports.specs.SchedulerAnswer.{truth, given, changed_by};

use exports::scheduler_answer::change;

#[unsafe(no_mangle)]
pub extern "C" fn raw_initialize_timer(
    words: &mut [u64],
    address: u64,
    architecture: u64,
    backing: u64,
    base: u64,
    size: u64,
    mapped: u64,
    manual: u64,
    out: &mut [u64],
) -> u64
    ensures { given result words.new out.new ≡ changed_by words.old out.old (initialize.timer_initialized words.old address (architecture_of architecture) (backing_of backing base size mapped) (truth manual)) }
{
    let a = images::architecture_of(architecture);
    let b = images::backing_of(backing, base, size, mapped);
    change(
        words,
        out,
        |w| timers::initialize::initialize_timer(w, address, a, b, manual != 0),
    )
}

#[unsafe(no_mangle)]
pub extern "C" fn raw_initialize_dpc(
    words: &mut [u64],
    address: u64,
    architecture: u64,
    backing: u64,
    base: u64,
    size: u64,
    mapped: u64,
    routine: u64,
    context: u64,
    out: &mut [u64],
) -> u64
    ensures { given result words.new out.new ≡ changed_by words.old out.old (initialize.dpc_initialized words.old address (architecture_of architecture) (backing_of backing base size mapped) routine context) }
{
    let a = images::architecture_of(architecture);
    let b = images::backing_of(backing, base, size, mapped);
    change(
        words,
        out,
        |w| timers::initialize::initialize_dpc(w, address, a, b, routine, context),
    )
}

#[unsafe(no_mangle)]
pub extern "C" fn raw_set_timer(
    words: &mut [u64],
    address: u64,
    due: u64,
    absolute: u64,
    period: i32,
    dpc: u64,
    out: &mut [u64],
) -> u64
    ensures { given result words.new out.new ≡ changed_by words.old out.old (arm.timer_set words.old address due (truth absolute) period dpc) }
{
    change(
        words,
        out,
        |w| arming::set_timer(w, address, due, absolute != 0, period, dpc),
    )
}

#[unsafe(no_mangle)]
pub extern "C" fn raw_cancel_timer(words: &mut [u64], address: u64, out: &mut [u64]) -> u64
    ensures { given result words.new out.new ≡ changed_by words.old out.old (arm.timer_cancelled words.old address) }
{
    change(words, out, |w| arming::cancel_timer(w, address))
}

#[unsafe(no_mangle)]
pub extern "C" fn raw_retire_timer_backing(
    words: &mut [u64],
    address: u64,
    size: u64,
    out: &mut [u64],
) -> u64
    ensures { given result words.new out.new ≡ changed_by words.old out.old (release.timers_retired words.old address size) }
{
    change(
        words,
        out,
        |w| timers::release::retire_timer_backing(w, address, size),
    )
}
