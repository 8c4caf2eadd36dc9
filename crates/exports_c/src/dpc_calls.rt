// The calls on DPCs. One that answers a DPC, its work, the policy or the counters wants an `out` of 24 words, else it is refused with 27;
// for any other see `scheduler_calls`.
ghost use Rattle.std.specs.Prelude.{◌≡◌};
ghost use Rattle.model.specs.Call as call;
ghost use Rattle.calls.specs.Called.{called};
ghost use Rattle.calls.specs.Guard as kind;
ghost use Rattle.exports.specs.SchedulerAnswer.{given, changed_by};
ghost use Rattle.exports.specs.RecordCall.{read_by, started_by};

#[unsafe(no_mangle)]
pub extern "C" fn scheduler_configure_dpc_dispatch(
    words: &mut [u64],
    first: u64,
    second: u64,
    out: &mut [u64],
) -> u64
    ensures { given result words.new out.new ≡ changed_by words.old out.old (called words.old (call.ConfigureDpcDispatch first second)) }
{
    exports::dpc_calls::scheduler_configure_dpc_dispatch(words, first, second, out)
}

#[unsafe(no_mangle)]
pub extern "C" fn scheduler_insert_queue_dpc(
    words: &mut [u64],
    address: u64,
    first: u64,
    second: u64,
    out: &mut [u64],
) -> u64
    ensures { given result words.new out.new ≡ changed_by words.old out.old (called words.old (call.InsertQueueDpc address first second)) }
{
    exports::dpc_calls::scheduler_insert_queue_dpc(words, address, first, second, out)
}

#[unsafe(no_mangle)]
pub extern "C" fn scheduler_remove_queue_dpc(
    words: &mut [u64],
    address: u64,
    out: &mut [u64],
) -> u64
    ensures { given result words.new out.new ≡ changed_by words.old out.old (called words.old (call.RemoveQueueDpc address)) }
{
    exports::dpc_calls::scheduler_remove_queue_dpc(words, address, out)
}

#[unsafe(no_mangle)]
pub extern "C" fn scheduler_start_dpc(words: &mut [u64], address: u64, out: &mut [u64]) -> u64
    ensures { given result words.new out.new ≡ started_by words.old out.old (called words.old (call.StartDpc address)) }
{
    exports::dpc_calls::scheduler_start_dpc(words, address, out)
}

#[unsafe(no_mangle)]
pub extern "C" fn scheduler_returned_dpc(
    words: &mut [u64],
    address: u64,
    sequence: u64,
    out: &mut [u64],
) -> u64
    ensures { given result words.new out.new ≡ changed_by words.old out.old (called words.old (call.ReturnedDpc address sequence)) }
{
    exports::dpc_calls::scheduler_returned_dpc(words, address, sequence, out)
}

#[unsafe(no_mangle)]
pub extern "C" fn scheduler_restored_dpc(
    words: &mut [u64],
    address: u64,
    sequence: u64,
    out: &mut [u64],
) -> u64
    ensures { given result words.new out.new ≡ changed_by words.old out.old (called words.old (call.RestoredDpc address sequence)) }
{
    exports::dpc_calls::scheduler_restored_dpc(words, address, sequence, out)
}

#[unsafe(no_mangle)]
pub extern "C" fn scheduler_dpc_initializations(words: &[u64], out: &mut [u64]) -> u64
    ensures { given result words.now out.new ≡ read_by kind.plain words.now out.old (called words.now (call.Reads call.DpcInitializations)) }
{
    exports::dpc_calls::scheduler_dpc_initializations(words, out)
}

#[unsafe(no_mangle)]
pub extern "C" fn scheduler_queued_dpcs(words: &[u64], position: u64, out: &mut [u64]) -> u64
    ensures { given result words.now out.new ≡ read_by kind.plain words.now out.old (called words.now (call.Reads (call.QueuedDpcs position))) }
{
    exports::dpc_calls::scheduler_queued_dpcs(words, position, out)
}

#[unsafe(no_mangle)]
pub extern "C" fn scheduler_dpc(words: &[u64], address: u64, out: &mut [u64]) -> u64
    ensures { given result words.now out.new ≡ read_by kind.dpcs words.now out.old (called words.now (call.Reads (call.DpcAt address))) }
{
    exports::dpc_calls::scheduler_dpc(words, address, out)
}

#[unsafe(no_mangle)]
pub extern "C" fn scheduler_dpcs(words: &[u64], position: u64, out: &mut [u64]) -> u64
    ensures { given result words.now out.new ≡ read_by kind.dpcs words.now out.old (called words.now (call.Reads (call.Dpcs position))) }
{
    exports::dpc_calls::scheduler_dpcs(words, position, out)
}

#[unsafe(no_mangle)]
pub extern "C" fn scheduler_active_dpc(words: &[u64], out: &mut [u64]) -> u64
    ensures { given result words.now out.new ≡ read_by kind.dpcs words.now out.old (called words.now (call.Reads call.ActiveDpc)) }
{
    exports::dpc_calls::scheduler_active_dpc(words, out)
}

#[unsafe(no_mangle)]
pub extern "C" fn scheduler_next_dpc(words: &[u64], out: &mut [u64]) -> u64
    ensures { given result words.now out.new ≡ read_by kind.dpcs words.now out.old (called words.now (call.Reads call.NextDpc)) }
{
    exports::dpc_calls::scheduler_next_dpc(words, out)
}

#[unsafe(no_mangle)]
pub extern "C" fn scheduler_dpc_policy(words: &[u64], out: &mut [u64]) -> u64
    ensures { given result words.now out.new ≡ read_by kind.policies words.now out.old (called words.now (call.Reads call.DpcPolicy)) }
{
    exports::dpc_calls::scheduler_dpc_policy(words, out)
}

#[unsafe(no_mangle)]
pub extern "C" fn scheduler_dpc_counters(words: &[u64], out: &mut [u64]) -> u64
    ensures { given result words.now out.new ≡ read_by kind.counts words.now out.old (called words.now (call.Reads call.DpcCounters)) }
{
    exports::dpc_calls::scheduler_dpc_counters(words, out)
}
