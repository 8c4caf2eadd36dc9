// What is read of DPCs.
ghost use Rattle.std.specs.Prelude.{◌≡◌};
ghost use Rattle.model.specs.Call as call;
ghost use Rattle.calls.specs.Guard as kind;
ghost use Rattle.exports.specs.SchedulerAnswer.{given};
ghost use Rattle.exports.specs.RecordCall.{read_by};
ghost use Rattle.unchecked.specs.Unchecked.{unchecked};

use exports::record_answer::{counters_answer, dpc_answer, policy_answer};
use exports::scheduler_answer::answer;

#[unsafe(no_mangle)]
pub extern "C" fn unchecked_dpc_initializations(words: &[u64], out: &mut [u64]) -> u64
    ensures { given result words.now out.new ≡ read_by kind.plain words.now out.old (unchecked words.now (call.Reads call.DpcInitializations)) }
{
    answer(out, || dpc_reads::dpc_initializations(words))
}

#[unsafe(no_mangle)]
pub extern "C" fn unchecked_queued_dpcs(words: &[u64], position: u64, out: &mut [u64]) -> u64
    ensures { given result words.now out.new ≡ read_by kind.plain words.now out.old (unchecked words.now (call.Reads (call.QueuedDpcs position))) }
{
    answer(out, || dpc_reads::queued_dpcs(words, position))
}

#[unsafe(no_mangle)]
pub extern "C" fn unchecked_dpc(words: &[u64], address: u64, out: &mut [u64]) -> u64
    ensures { given result words.now out.new ≡ read_by kind.dpcs words.now out.old (unchecked words.now (call.Reads (call.DpcAt address))) }
{
    dpc_answer(out, || dpc_reads::dpc(words, address).map(Some))
}

#[unsafe(no_mangle)]
pub extern "C" fn unchecked_dpcs(words: &[u64], position: u64, out: &mut [u64]) -> u64
    ensures { given result words.now out.new ≡ read_by kind.dpcs words.now out.old (unchecked words.now (call.Reads (call.Dpcs position))) }
{
    dpc_answer(out, || Ok(dpc_reads::dpcs_at(words, position)))
}

#[unsafe(no_mangle)]
pub extern "C" fn unchecked_active_dpc(words: &[u64], out: &mut [u64]) -> u64
    ensures { given result words.now out.new ≡ read_by kind.dpcs words.now out.old (unchecked words.now (call.Reads call.ActiveDpc)) }
{
    dpc_answer(out, || Ok(dpc_reads::active_dpc(words)))
}

#[unsafe(no_mangle)]
pub extern "C" fn unchecked_next_dpc(words: &[u64], out: &mut [u64]) -> u64
    ensures { given result words.now out.new ≡ read_by kind.dpcs words.now out.old (unchecked words.now (call.Reads call.NextDpc)) }
{
    dpc_answer(out, || Ok(dpc_reads::next_dpc(words)))
}

#[unsafe(no_mangle)]
pub extern "C" fn unchecked_dpc_policy(words: &[u64], out: &mut [u64]) -> u64
    ensures { given result words.now out.new ≡ read_by kind.policies words.now out.old (unchecked words.now (call.Reads call.DpcPolicy)) }
{
    policy_answer(out, || Ok(dpc_reads::dpc_policy(words)))
}

#[unsafe(no_mangle)]
pub extern "C" fn unchecked_dpc_counters(words: &[u64], out: &mut [u64]) -> u64
    ensures { given result words.now out.new ≡ read_by kind.counts words.now out.old (unchecked words.now (call.Reads call.DpcCounters)) }
{
    counters_answer(out, || Ok(dpc_reads::dpc_counters(words)))
}
