// Timers, and the making of DPCs.
ghost use Rattle.std.specs.Prelude.{◌≡◌};
ghost use Rattle.model.specs.Call as call;
ghost use Rattle.images.specs.Place.{architecture_of};
ghost use Rattle.backings.specs.Lent.{lent_backing};
ghost use Rattle.exports.specs.SchedulerAnswer.{truth, given, changed_by};
ghost use Rattle.unchecked.specs.Unchecked.{unchecked};

#[unsafe(no_mangle)]
pub extern "C" fn unchecked_initialize_timer(
    words: &mut [u64],
    address: u64,
    architecture: u64,
    backing: u64,
    base: u64,
    size: u64,
    mapped: u64,
    manual: u64,
    out: &mut [u64],
) -> u64
    ensures { given result words.new out.new ≡ changed_by words.old out.old (unchecked words.old (call.InitializeTimer address (architecture_of architecture) (lent_backing architecture backing base size mapped) (truth manual))) }
{
    unchecked_calls::timer_calls::unchecked_initialize_timer(
        words,
        address,
        architecture,
        backing,
        base,
        size,
        mapped,
        manual,
        out,
    )
}

#[unsafe(no_mangle)]
pub extern "C" fn unchecked_initialize_dpc(
    words: &mut [u64],
    address: u64,
    architecture: u64,
    backing: u64,
    base: u64,
    size: u64,
    mapped: u64,
    routine: u64,
    context: u64,
    out: &mut [u64],
) -> u64
    ensures { given result words.new out.new ≡ changed_by words.old out.old (unchecked words.old (call.InitializeDpc address (architecture_of architecture) (lent_backing architecture backing base size mapped) routine context)) }
{
    unchecked_calls::timer_calls::unchecked_initialize_dpc(
        words,
        address,
        architecture,
        backing,
        base,
        size,
        mapped,
        routine,
        context,
        out,
    )
}

#[unsafe(no_mangle)]
pub extern "C" fn unchecked_set_timer(
    words: &mut [u64],
    address: u64,
    due: u64,
    absolute: u64,
    period: i32,
    dpc: u64,
    out: &mut [u64],
) -> u64
    ensures { given result words.new out.new ≡ changed_by words.old out.old (unchecked words.old (call.SetTimer address due (truth absolute) period dpc)) }
{
    unchecked_calls::timer_calls::unchecked_set_timer(
        words, address, due, absolute, period, dpc, out,
    )
}

#[unsafe(no_mangle)]
pub extern "C" fn unchecked_set_timer_signed(
    words: &mut [u64],
    address: u64,
    due: i64,
    period: i32,
    dpc: u64,
    out: &mut [u64],
) -> u64
    ensures { given result words.new out.new ≡ changed_by words.old out.old (unchecked words.old (call.SetTimerSigned address due period dpc)) }
{
    unchecked_calls::timer_calls::unchecked_set_timer_signed(words, address, due, period, dpc, out)
}

#[unsafe(no_mangle)]
pub extern "C" fn unchecked_cancel_timer(words: &mut [u64], address: u64, out: &mut [u64]) -> u64
    ensures { given result words.new out.new ≡ changed_by words.old out.old (unchecked words.old (call.CancelTimer address)) }
{
    unchecked_calls::timer_calls::unchecked_cancel_timer(words, address, out)
}

#[unsafe(no_mangle)]
pub extern "C" fn unchecked_retire_timer_backing(
    words: &mut [u64],
    address: u64,
    size: u64,
    out: &mut [u64],
) -> u64
    ensures { given result words.new out.new ≡ changed_by words.old out.old (unchecked words.old (call.RetireTimerBacking address size)) }
{
    unchecked_calls::timer_calls::unchecked_retire_timer_backing(words, address, size, out)
}
