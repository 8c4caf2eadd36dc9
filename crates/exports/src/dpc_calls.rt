// The calls on DPCs. One that answers a DPC, its work, the policy or the counters wants an `out` of 24 words, else it is refused with 27;
// for any other see `scheduler_calls`.
ghost use Rattle.std.specs.Prelude.{◌≡◌};
ghost use Rattle.model.specs.Call as call;
ghost use Rattle.calls.specs.Called.{called};
ghost use Rattle.calls.specs.Guard as kind;
ghost use Rattle.exports.specs.SchedulerAnswer.{given, changed_by};
ghost use Rattle.exports.specs.RecordCall.{read_by, started_by};

use super::record_answer::{counters_answer, dpc_answer, policy_answer, start};
use super::scheduler_answer::{answer, change};

#[unsafe(no_mangle)]
pub extern "C" fn scheduler_configure_dpc_dispatch(
    words: &mut [u64],
    first: u64,
    second: u64,
    out: &mut [u64],
) -> u64
    ensures { given result words.new out.new ≡ changed_by words.old out.old (called words.old (call.ConfigureDpcDispatch first second)) }
{
    change(
        words,
        out,
        |w| scheduler::dpc_calls::configure_dpc_dispatch(w, first, second),
    )
}

#[unsafe(no_mangle)]
pub extern "C" fn scheduler_insert_queue_dpc(
    words: &mut [u64],
    address: u64,
    first: u64,
    second: u64,
    out: &mut [u64],
) -> u64
    ensures { given result words.new out.new ≡ changed_by words.old out.old (called words.old (call.InsertQueueDpc address first second)) }
{
    change(
        words,
        out,
        |w| scheduler::dpc_calls::insert_queue_dpc(w, address, first, second),
    )
}

#[unsafe(no_mangle)]
pub extern "C" fn scheduler_remove_queue_dpc(
    words: &mut [u64],
    address: u64,
    out: &mut [u64],
) -> u64
    ensures { given result words.new out.new ≡ changed_by words.old out.old (called words.old (call.RemoveQueueDpc address)) }
{
    change(
        words,
        out,
        |w| scheduler::dpc_calls::remove_queue_dpc(w, address),
    )
}

#[unsafe(no_mangle)]
pub extern "C" fn scheduler_start_dpc(words: &mut [u64], address: u64, out: &mut [u64]) -> u64
    ensures { given result words.new out.new ≡ started_by words.old out.old (called words.old (call.StartDpc address)) }
{
    start(words, out, |w| scheduler::dpc_calls::start_dpc(w, address))
}

#[unsafe(no_mangle)]
pub extern "C" fn scheduler_returned_dpc(
    words: &mut [u64],
    address: u64,
    sequence: u64,
    out: &mut [u64],
) -> u64
    ensures { given result words.new out.new ≡ changed_by words.old out.old (called words.old (call.ReturnedDpc address sequence)) }
{
    change(
        words,
        out,
        |w| scheduler::dpc_calls::returned_dpc(w, address, sequence),
    )
}

#[unsafe(no_mangle)]
pub extern "C" fn scheduler_restored_dpc(
    words: &mut [u64],
    address: u64,
    sequence: u64,
    out: &mut [u64],
) -> u64
    ensures { given result words.new out.new ≡ changed_by words.old out.old (called words.old (call.RestoredDpc address sequence)) }
{
    change(
        words,
        out,
        |w| scheduler::dpc_calls::restored_dpc(w, address, sequence),
    )
}

#[unsafe(no_mangle)]
pub extern "C" fn scheduler_dpc_initializations(words: &[u64], out: &mut [u64]) -> u64
    ensures { given result words.now out.new ≡ read_by kind.plain words.now out.old (called words.now (call.Reads call.DpcInitializations)) }
{
    answer(out, || scheduler::dpc_calls::dpc_initializations(words))
}

#[unsafe(no_mangle)]
pub extern "C" fn scheduler_queued_dpcs(words: &[u64], position: u64, out: &mut [u64]) -> u64
    ensures { given result words.now out.new ≡ read_by kind.plain words.now out.old (called words.now (call.Reads (call.QueuedDpcs position))) }
{
    answer(out, || scheduler::dpc_calls::queued_dpcs(words, position))
}

#[unsafe(no_mangle)]
pub extern "C" fn scheduler_dpc(words: &[u64], address: u64, out: &mut [u64]) -> u64
    ensures { given result words.now out.new ≡ read_by kind.dpcs words.now out.old (called words.now (call.Reads (call.DpcAt address))) }
{
    dpc_answer(out, || scheduler::dpc_calls::dpc(words, address).map(Some))
}

#[unsafe(no_mangle)]
pub extern "C" fn scheduler_dpcs(words: &[u64], position: u64, out: &mut [u64]) -> u64
    ensures { given result words.now out.new ≡ read_by kind.dpcs words.now out.old (called words.now (call.Reads (call.Dpcs position))) }
{
    dpc_answer(out, || scheduler::dpc_calls::dpcs(words, position))
}

#[unsafe(no_mangle)]
pub extern "C" fn scheduler_active_dpc(words: &[u64], out: &mut [u64]) -> u64
    ensures { given result words.now out.new ≡ read_by kind.dpcs words.now out.old (called words.now (call.Reads call.ActiveDpc)) }
{
    dpc_answer(out, || scheduler::dpc_calls::active_dpc(words))
}

#[unsafe(no_mangle)]
pub extern "C" fn scheduler_next_dpc(words: &[u64], out: &mut [u64]) -> u64
    ensures { given result words.now out.new ≡ read_by kind.dpcs words.now out.old (called words.now (call.Reads call.NextDpc)) }
{
    dpc_answer(out, || scheduler::dpc_calls::next_dpc(words))
}

#[unsafe(no_mangle)]
pub extern "C" fn scheduler_dpc_policy(words: &[u64], out: &mut [u64]) -> u64
    ensures { given result words.now out.new ≡ read_by kind.policies words.now out.old (called words.now (call.Reads call.DpcPolicy)) }
{
    policy_answer(out, || scheduler::dpc_calls::dpc_policy(words))
}

#[unsafe(no_mangle)]
pub extern "C" fn scheduler_dpc_counters(words: &[u64], out: &mut [u64]) -> u64
    ensures { given result words.now out.new ≡ read_by kind.counts words.now out.old (called words.now (call.Reads call.DpcCounters)) }
{
    counters_answer(out, || scheduler::dpc_calls::dpc_counters(words))
}
