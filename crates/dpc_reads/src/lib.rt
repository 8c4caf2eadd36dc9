// What is read of DPCs, of the queue, and of the policy.
#![tactic(auto)]

ghost use Rattle.std.specs.Prelude.{◌≡◌, ◌<◌};
ghost use Rattle.answers.specs.declared.Answer.TheVariants as answer;
ghost use Rattle.objects.specs.Found.{nonzero};
ghost use Rattle.dpc_reads.specs.CountersAnswer as counters;
ghost use Rattle.dpc_reads.specs.Reads.{told, known, selected, count_or_none, dpc_numbered, dpc_read, dpcs_at, active_dpc, next_dpc, policy_read, counters_read, queued_number, queued_dpcs, initializations_read};

use answers::error::SchedulerError;
use dpcs::record;
use images::Dpc;
use words::layout;

#[derive(Clone, Copy, Debug, PartialEq, Eq)]
pub enum DpcPolicy {
    // As the Rust has it: a policy too.
    Unselected,
    // The arguments of a timer's work.
    Cpu0Dispatch { first: u64, second: u64 },
}

#[derive(Clone, Copy, Debug, PartialEq, Eq)]
pub struct DpcCounters {
    pub accepted: u64,
    pub duplicates: u64,
    pub removed: u64,
    pub started: u64,
    pub returned: u64,
    pub restored: u64,
}

#[tactic(auto, unfolding(crate::specs::Reads::policy_read))]
pub fn dpc_policy(w: &[u64]) -> DpcPolicy
    ensures { selected result ≡ policy_read w.now }
{
    if words::get(w, layout::POLICY) == 0 {
        return DpcPolicy::Unselected;
    }
    DpcPolicy::Cpu0Dispatch {
        first: words::get(w, layout::TIMER_ARGUMENT),
        second: words::get(w, layout::TIMER_ARGUMENT_2),
    }
}

#[tactic(auto, unfolding(crate::specs::Reads::counters_read))]
pub fn dpc_counters(w: &[u64]) -> DpcCounters
    ensures { counters.Counters result ≡ counters_read w.now }
{
    DpcCounters {
        accepted: words::get(w, layout::ACCEPTED),
        duplicates: words::get(w, layout::DUPLICATES),
        removed: words::get(w, layout::REMOVED),
        started: words::get(w, layout::STARTED),
        returned: words::get(w, layout::RETURNED),
        restored: words::get(w, layout::RESTORED),
    }
}

// How many times a DPC has been initialized.
#[tactic(auto, unfolding(crate::specs::Reads::initializations_read))]
pub fn dpc_initializations(w: &[u64]) -> u64
    ensures { answer.Count result ≡ initializations_read w.now }
{
    words::get(w, layout::DPC_INITIALIZATIONS)
}

// The DPC of this number; 0 is none.
#[tactic(auto, unfolding(crate::specs::Reads::dpc_numbered))]
fn dpc_numbered(w: &[u64], n: u64) -> Option<Dpc>
    ensures { told result ≡ dpc_numbered w.now n }
{
    if n == 0 {
        return None;
    }
    Some(record::read_dpc(w, record::place(w, n)))
}

// The DPC at this address.
#[tactic(auto, unfolding(crate::specs::Reads::dpc_read, crate::specs::Reads::dpc_numbered))]
pub fn dpc(w: &[u64], address: u64) -> Result<Dpc, SchedulerError>
    ensures { known result ≡ dpc_read w.now address }
{
    let n = record::number_of(w, address).ok_or(SchedulerError::Unknown)?;
    Ok(record::read_dpc(w, record::place(w, n)))
}

// The DPC at a position in the order of the addresses, from 0 on.
#[tactic(auto, unfolding(crate::specs::Reads::dpcs_at))]
pub fn dpcs_at(w: &[u64], position: u64) -> Option<Dpc>
    ensures { told result ≡ dpcs_at w.now position }
{
    if words::get(w, layout::DPCS) <= position {
        return None;
    }
    dpc_numbered(w, position + 1)
}

// The DPC whose work is running or returning.
#[tactic(auto, unfolding(crate::specs::Reads::active_dpc, crate::specs::Reads::dpc_numbered))]
pub fn active_dpc(w: &[u64]) -> Option<Dpc>
    ensures { told result ≡ active_dpc w.now }
{
    let address = words::get(w, layout::ACTIVE);
    if address == 0 {
        return None;
    }
    dpc_numbered(w, record::number_of(w, address)?)
}

// The DPC whose work may start: the first of the queue, where no work is active.
#[tactic(auto, unfolding(crate::specs::Reads::next_dpc))]
pub fn next_dpc(w: &[u64]) -> Option<Dpc>
    ensures { told result ≡ next_dpc w.now }
{
    if words::get(w, layout::ACTIVE) != 0 {
        return None;
    }
    dpc_numbered(w, record::queue_chain(w).front(w))
}

// The number of the DPC at a position in the queue, from 0 on.
fn queued_number(w: &[u64], position: u64) -> Option<u64>
    requires { position < 4096 }
    ensures { result ≡ nonzero (queued_number w.now position) }
{
    record::queue_chain(w).members(w).nth(position as usize)
}

// The address of the DPC at a position in the queue, which has at most 4096.
#[tactic(auto, unfolding(crate::specs::Reads::queued_dpcs))]
pub fn queued_dpcs(w: &[u64], position: u64) -> Option<u64>
    ensures { count_or_none result ≡ queued_dpcs w.now position }
{
    if 4095 < position {
        return None;
    }
    let n = queued_number(w, position)?;
    Some(words::get_in(w, record::place(w, n), layout::ADDRESS))
}
