// What is read of DPCs.
ghost use Rattle.std.specs.Prelude.{◌≡◌};
ghost use Rattle.model.specs.Call as call;
ghost use Rattle.calls.specs.Guard as kind;
ghost use Rattle.exports.specs.SchedulerAnswer.{given};
ghost use Rattle.exports.specs.RecordCall.{read_by};
ghost use Rattle.unchecked.specs.Unchecked.{unchecked};

#[unsafe(no_mangle)]
pub extern "C" fn unchecked_dpc_initializations(words: &[u64], out: &mut [u64]) -> u64
    ensures { given result words.now out.new ≡ read_by kind.plain words.now out.old (unchecked words.now (call.Reads call.DpcInitializations)) }
{
    unchecked_reads::dpc_calls::unchecked_dpc_initializations(words, out)
}

#[unsafe(no_mangle)]
pub extern "C" fn unchecked_queued_dpcs(words: &[u64], position: u64, out: &mut [u64]) -> u64
    ensures { given result words.now out.new ≡ read_by kind.plain words.now out.old (unchecked words.now (call.Reads (call.QueuedDpcs position))) }
{
    unchecked_reads::dpc_calls::unchecked_queued_dpcs(words, position, out)
}

#[unsafe(no_mangle)]
pub extern "C" fn unchecked_dpc(words: &[u64], address: u64, out: &mut [u64]) -> u64
    ensures { given result words.now out.new ≡ read_by kind.dpcs words.now out.old (unchecked words.now (call.Reads (call.DpcAt address))) }
{
    unchecked_reads::dpc_calls::unchecked_dpc(words, address, out)
}

#[unsafe(no_mangle)]
pub extern "C" fn unchecked_dpcs(words: &[u64], position: u64, out: &mut [u64]) -> u64
    ensures { given result words.now out.new ≡ read_by kind.dpcs words.now out.old (unchecked words.now (call.Reads (call.Dpcs position))) }
{
    unchecked_reads::dpc_calls::unchecked_dpcs(words, position, out)
}

#[unsafe(no_mangle)]
pub extern "C" fn unchecked_active_dpc(words: &[u64], out: &mut [u64]) -> u64
    ensures { given result words.now out.new ≡ read_by kind.dpcs words.now out.old (unchecked words.now (call.Reads call.ActiveDpc)) }
{
    unchecked_reads::dpc_calls::unchecked_active_dpc(words, out)
}

#[unsafe(no_mangle)]
pub extern "C" fn unchecked_next_dpc(words: &[u64], out: &mut [u64]) -> u64
    ensures { given result words.now out.new ≡ read_by kind.dpcs words.now out.old (unchecked words.now (call.Reads call.NextDpc)) }
{
    unchecked_reads::dpc_calls::unchecked_next_dpc(words, out)
}

#[unsafe(no_mangle)]
pub extern "C" fn unchecked_dpc_policy(words: &[u64], out: &mut [u64]) -> u64
    ensures { given result words.now out.new ≡ read_by kind.policies words.now out.old (unchecked words.now (call.Reads call.DpcPolicy)) }
{
    unchecked_reads::dpc_calls::unchecked_dpc_policy(words, out)
}

#[unsafe(no_mangle)]
pub extern "C" fn unchecked_dpc_counters(words: &[u64], out: &mut [u64]) -> u64
    ensures { given result words.now out.new ≡ read_by kind.counts words.now out.old (unchecked words.now (call.Reads call.DpcCounters)) }
{
    unchecked_reads::dpc_calls::unchecked_dpc_counters(words, out)
}
