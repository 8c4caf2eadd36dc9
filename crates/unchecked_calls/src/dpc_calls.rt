// DPCs: the policy, the queue, and the work's way from its start to its end.
ghost use Rattle.std.specs.Prelude.{◌≡◌};
ghost use Rattle.model.specs.Call as call;
ghost use Rattle.exports.specs.SchedulerAnswer.{given, changed_by};
ghost use Rattle.exports.specs.RecordCall.{started_by};
ghost use Rattle.unchecked.specs.Unchecked.{unchecked};

#[unsafe(no_mangle)]
pub extern "C" fn unchecked_configure_dpc_dispatch(
    words: &mut [u64],
    first: u64,
    second: u64,
    out: &mut [u64],
) -> u64
    ensures { given result words.new out.new ≡ changed_by words.old out.old (unchecked words.old (call.ConfigureDpcDispatch first second)) }
{
    raw_exports::dpc_calls::raw_configure_dpc_dispatch(words, first, second, out)
}

#[unsafe(no_mangle)]
pub extern "C" fn unchecked_insert_queue_dpc(
    words: &mut [u64],
    address: u64,
    first: u64,
    second: u64,
    out: &mut [u64],
) -> u64
    ensures { given result words.new out.new ≡ changed_by words.old out.old (unchecked words.old (call.InsertQueueDpc address first second)) }
{
    raw_exports::dpc_calls::raw_insert_queue_dpc(words, address, first, second, out)
}

#[unsafe(no_mangle)]
pub extern "C" fn unchecked_remove_queue_dpc(
    words: &mut [u64],
    address: u64,
    out: &mut [u64],
) -> u64
    ensures { given result words.new out.new ≡ changed_by words.old out.old (unchecked words.old (call.RemoveQueueDpc address)) }
{
    raw_exports::dpc_calls::raw_remove_queue_dpc(words, address, out)
}

#[unsafe(no_mangle)]
pub extern "C" fn unchecked_start_dpc(words: &mut [u64], address: u64, out: &mut [u64]) -> u64
    ensures { given result words.new out.new ≡ started_by words.old out.old (unchecked words.old (call.StartDpc address)) }
{
    raw_exports::dpc_calls::raw_start_dpc(words, address, out)
}

#[unsafe(no_mangle)]
pub extern "C" fn unchecked_returned_dpc(
    words: &mut [u64],
    address: u64,
    sequence: u64,
    out: &mut [u64],
) -> u64
    ensures { given result words.new out.new ≡ changed_by words.old out.old (unchecked words.old (call.ReturnedDpc address sequence)) }
{
    raw_exports::dpc_calls::raw_returned_dpc(words, address, sequence, out)
}

#[unsafe(no_mangle)]
pub extern "C" fn unchecked_restored_dpc(
    words: &mut [u64],
    address: u64,
    sequence: u64,
    out: &mut [u64],
) -> u64
    ensures { given result words.new out.new ≡ changed_by words.old out.old (unchecked words.old (call.RestoredDpc address sequence)) }
{
    raw_exports::dpc_calls::raw_restored_dpc(words, address, sequence, out)
}
