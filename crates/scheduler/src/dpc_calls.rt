// DPCs: the policy, the queue, the work's way from its start to its end, and what is read of them.
ghost use Rattle.std.specs.Prelude.{◌≡◌};
ghost use Rattle.model.specs.Call as call;
ghost use Rattle.calls.specs.Called.{called};
ghost use Rattle.answers.specs.Outcome.{outcome};
ghost use Rattle.dpc_work.specs.Work as calls;
ghost use Rattle.answers.specs.declared.Answer.TheVariants as answer;
ghost use Rattle.answers.specs.Errors.{done, answer_of, told_by};
ghost use Rattle.dpc_reads.specs.DpcAnswer as dpc;
ghost use Rattle.dpc_reads.specs.PolicyAnswer as policy;
ghost use Rattle.dpc_reads.specs.CountersAnswer as counters;
ghost use Rattle.dpc_reads.specs.Reads as reads;

use answers::error::SchedulerError;
use dpc_reads::{DpcCounters, DpcPolicy};
use images::{Dpc, DpcWork};

pub fn configure_dpc_dispatch(w: &mut [u64], first: u64, second: u64) -> Result<(), SchedulerError>
    ensures { outcome (done result) w.new ≡ called w.old (call.ConfigureDpcDispatch first second) }
{
    form::check(w)?;
    dpc_work::configure_dpc_dispatch(w, first, second)
}

pub fn insert_queue_dpc(
    w: &mut [u64],
    address: u64,
    first: u64,
    second: u64,
) -> Result<bool, SchedulerError>
    ensures { outcome (answer_of answer.Flag result) w.new ≡ called w.old (call.InsertQueueDpc address first second) }
{
    form::check(w)?;
    dpc_work::insert_queue_dpc(w, address, first, second)
}

pub fn remove_queue_dpc(w: &mut [u64], address: u64) -> Result<bool, SchedulerError>
    ensures { outcome (answer_of answer.Flag result) w.new ≡ called w.old (call.RemoveQueueDpc address) }
{
    form::check(w)?;
    dpc_work::remove_queue_dpc(w, address)
}

pub fn start_dpc(w: &mut [u64], address: u64) -> Result<DpcWork, SchedulerError>
    ensures { calls.start_outcome (calls.told result) w.new ≡ called w.old (call.StartDpc address) }
{
    form::check(w)?;
    dpc_work::start_dpc(w, address)
}

pub fn returned_dpc(w: &mut [u64], address: u64, sequence: u64) -> Result<(), SchedulerError>
    ensures { outcome (done result) w.new ≡ called w.old (call.ReturnedDpc address sequence) }
{
    form::check(w)?;
    dpc_work::returned_dpc(w, address, sequence)
}

pub fn restored_dpc(w: &mut [u64], address: u64, sequence: u64) -> Result<(), SchedulerError>
    ensures { outcome (done result) w.new ≡ called w.old (call.RestoredDpc address sequence) }
{
    form::check(w)?;
    dpc_work::restored_dpc(w, address, sequence)
}

pub fn dpc_initializations(w: &[u64]) -> Result<u64, SchedulerError>
    ensures { answer_of answer.Count result ≡ called w.now (call.Reads call.DpcInitializations) }
{
    form::check(w)?;
    Ok(dpc_reads::dpc_initializations(w))
}

// The address of the DPC at a position in the queue, from 0 on.
pub fn queued_dpcs(w: &[u64], position: u64) -> Result<Option<u64>, SchedulerError>
    ensures { answer_of reads.count_or_none result ≡ called w.now (call.Reads (call.QueuedDpcs position)) }
{
    form::check(w)?;
    Ok(dpc_reads::queued_dpcs(w, position))
}

pub fn dpc(w: &[u64], address: u64) -> Result<Dpc, SchedulerError>
    ensures { reads.known result ≡ called w.now (call.Reads (call.DpcAt address)) }
{
    form::check(w)?;
    dpc_reads::dpc(w, address)
}

// The DPC at a position in the order of the addresses, from 0 on.
pub fn dpcs(w: &[u64], position: u64) -> Result<Option<Dpc>, SchedulerError>
    ensures { told_by reads.told dpc.Refused result ≡ called w.now (call.Reads (call.Dpcs position)) }
{
    form::check(w)?;
    Ok(dpc_reads::dpcs_at(w, position))
}

// The DPC whose work is running or returning.
pub fn active_dpc(w: &[u64]) -> Result<Option<Dpc>, SchedulerError>
    ensures { told_by reads.told dpc.Refused result ≡ called w.now (call.Reads call.ActiveDpc) }
{
    form::check(w)?;
    Ok(dpc_reads::active_dpc(w))
}

// The DPC whose work may start.
pub fn next_dpc(w: &[u64]) -> Result<Option<Dpc>, SchedulerError>
    ensures { told_by reads.told dpc.Refused result ≡ called w.now (call.Reads call.NextDpc) }
{
    form::check(w)?;
    Ok(dpc_reads::next_dpc(w))
}

pub fn dpc_policy(w: &[u64]) -> Result<DpcPolicy, SchedulerError>
    ensures { told_by reads.selected policy.Refused result ≡ called w.now (call.Reads call.DpcPolicy) }
{
    form::check(w)?;
    Ok(dpc_reads::dpc_policy(w))
}

pub fn dpc_counters(w: &[u64]) -> Result<DpcCounters, SchedulerError>
    ensures { told_by counters.Counters counters.Refused result ≡ called w.now (call.Reads call.DpcCounters) }
{
    form::check(w)?;
    Ok(dpc_reads::dpc_counters(w))
}
