// The calls that select a policy, put work into the DPC queue, take it out, and run it. They are total: words out of form get an answer too, if no useful one.
#![tactic(auto)]

ghost use Rattle.std.specs.Prelude.{◌≡◌, IfOk};
ghost use Rattle.answers.specs.declared.Answer.TheVariants as answer;
ghost use Rattle.answers.specs.Errors.{refusal, answer_of, done};
ghost use Rattle.answers.specs.Outcome.{outcome};
ghost use Rattle.dpcs.specs.Record.{number_of};
ghost use Rattle.dpc_work.specs.Work.{untouched, configure_refusal, policy_set, configured, duplicate_refusal, work_refusal, queue_inserted, queue_removed, head_started, start_outcome, told, work_started, phase_refusal, returning, work_returned, idle, work_restored};

use answers::error::SchedulerError;
use dpcs::{named, record};
use images::DpcWork;
use words::layout;

// How many acceptances there can be.
const LIFETIME: u64 = 65_536;

// The origin of a caller's work.
const CALLER: dpc_queue::Origin = dpc_queue::Origin {
    timer: 0,
    address: 0,
    arm: 0,
    initialization: 0,
    deadline: 0,
    observed: 0,
    periodic: 0,
};

// Whether nothing has been made or done since the opening: thread 1 alone, and current.
#[tactic(auto, unfolding(crate::specs::Work::untouched))]
fn is_untouched(w: &[u64]) -> bool
    ensures { result ≡ untouched w.now }
{
    words::get(w, layout::POLICY) == 0
        && words::get(w, layout::THREADS) == 1
        && words::get(w, layout::CURRENT) == 1
        && words::get(w, layout::SEQUENCE) == 0
        && words::get(w, layout::NOW) == 0
        && words::get(w, layout::OBJECTS) == 0
        && words::get(w, layout::DPCS) == 0
        && words::get(w, layout::ACCEPTED) == 0
}

#[tactic(auto, unfolding(crate::specs::Work::configure_refusal))]
fn check_configure(w: &[u64], first: u64, second: u64) -> Result<(), SchedulerError>
    ensures { refusal result ≡ configure_refusal w.now first second }
{
    if !is_untouched(w) || first == 0 || second == 0 || first == second {
        return Err(SchedulerError::Policy);
    }
    Ok(())
}

#[tactic(auto, unfolding(crate::specs::Work::policy_set))]
fn set_policy(w: &mut [u64], first: u64, second: u64)
    ensures { w.new ≡ policy_set w.old first second }
{
    words::put(w, layout::POLICY, 1);
    words::put(w, layout::TIMER_ARGUMENT, first);
    words::put(w, layout::TIMER_ARGUMENT_2, second);
}

// The policy selected, once and before all else, with the arguments of a timer's work.
#[tactic(auto, unfolding(crate::specs::Work::configured))]
pub fn configure_dpc_dispatch(w: &mut [u64], first: u64, second: u64) -> Result<(), SchedulerError>
    ensures { outcome (done result) w.new ≡ configured w.old first second }
{
    check_configure(w, first, second)?;
    set_policy(w, first, second);
    Ok(())
}

// A caller's insertion of a DPC that is queued, whose record stands at place `at`.
#[tactic(auto, unfolding(crate::specs::Work::duplicate_refusal))]
fn check_duplicate(w: &[u64], at: usize) -> Result<(), SchedulerError>
    ensures { refusal result ≡ duplicate_refusal w.now at }
{
    if words::get_in(w, at, layout::ORIGIN) != 0 {
        return Err(SchedulerError::OtherOrigin);
    }
    if words::get(w, layout::DUPLICATES) == u64::MAX {
        return Err(SchedulerError::CountOverflow);
    }
    Ok(())
}

#[tactic(auto, unfolding(crate::specs::Work::work_refusal))]
fn check_work(w: &[u64], n: u64) -> Result<(), SchedulerError>
    ensures { refusal result ≡ work_refusal w.now n }
{
    let at = record::place(w, n);
    match words::get_in(w, at, layout::PHASE) {
        dpc_queue::QUEUED => check_duplicate(w, at),
        dpc_queue::IDLE if words::get(w, layout::ACCEPTED) < LIFETIME => Ok(()),
        dpc_queue::IDLE => Err(SchedulerError::Lifetime),
        _ => Err(SchedulerError::Busy),
    }
}

// A caller's work put last into the queue; a DPC that is queued keeps its work, and a duplicate is counted.
#[tactic(auto, unfolding(crate::specs::Work::queue_inserted, crate::specs::Work::insert_refusal, crate::specs::Work::caller_origin))]
pub fn insert_queue_dpc(
    w: &mut [u64],
    address: u64,
    first: u64,
    second: u64,
) -> Result<bool, SchedulerError>
    ensures { outcome (answer_of answer.Flag result) w.new ≡ queue_inserted w.old address first second }
{
    if named::is_named(w, address) {
        return Err(SchedulerError::Named);
    }
    if words::get(w, layout::POLICY) == 0 {
        return Err(SchedulerError::Policy);
    }
    let n = record::number_of(w, address).ok_or(SchedulerError::Unknown)?;
    check_work(w, n)?;
    if dpc_queue::is_queued(w, n) {
        dpc_queue::raise(w, layout::DUPLICATES);
        return Ok(false);
    }
    dpc_queue::accept(w, n, first, second, CALLER);
    Ok(true)
}

// The work of a queued DPC taken out.
#[tactic(auto, unfolding(crate::specs::Work::queue_removed, crate::specs::Work::remove_refusal))]
pub fn remove_queue_dpc(w: &mut [u64], address: u64) -> Result<bool, SchedulerError>
    ensures { outcome (answer_of answer.Flag result) w.new ≡ queue_removed w.old address }
{
    let n = record::number_of(w, address).ok_or(SchedulerError::Unknown)?;
    if !dpc_queue::is_queued(w, n) {
        return Ok(false);
    }
    dpc_queue::withdraw(w, n);
    Ok(true)
}

// DPC `n`, the first of the queue, taken out of it, and its work running.
#[tactic(auto, unfolding(crate::specs::Work::head_started))]
fn start_head(w: &mut [u64], n: u64, address: u64)
    ensures { w.new ≡ head_started w.old n address }
{
    let at = record::place(w, n);
    let queue = record::queue_chain(w);
    queue.unlink(w, 0, n);
    words::put_in(w, at, layout::PHASE, dpc_queue::RUNNING);
    dpc_queue::raise(w, layout::STARTED);
    words::put(w, layout::ACTIVE, address);
}

// The work of the first DPC of the queue starts, where no work is active.
#[tactic(auto, unfolding(crate::specs::Work::work_started, crate::specs::Work::start_refusal))]
pub fn start_dpc(w: &mut [u64], address: u64) -> Result<DpcWork, SchedulerError>
    ensures { start_outcome (told result) w.new ≡ work_started w.old address }
{
    let n = record::queue_chain(w).front(w);
    let at = record::place(w, n);
    if words::get(w, layout::ACTIVE) != 0
        || n == 0
        || words::get_in(w, at, layout::ADDRESS) != address
    {
        return Err(SchedulerError::OtherWork);
    }
    let work = record::work_at(w, at);
    start_head(w, n, address);
    Ok(work)
}

// The number of the DPC, whose work is to have the sequence and to be in this phase.
#[tactic(auto, unfolding(crate::specs::Work::phase_refusal))]
fn in_phase(w: &[u64], address: u64, phase: u64, sequence: u64) -> Result<u64, SchedulerError>
    ensures refused { refusal result ≡ phase_refusal w.now address phase sequence }
    ensures number { IfOk result (λ n. n ≡ number_of w.now address) }
{
    let n = record::number_of(w, address).ok_or(SchedulerError::Unknown)?;
    let at = record::place(w, n);
    if words::get_in(w, at, layout::PHASE) != phase
        || words::get_in(w, at, layout::WORK_SEQUENCE) != sequence
    {
        return Err(SchedulerError::OtherWork);
    }
    Ok(n)
}

#[tactic(auto, unfolding(crate::specs::Work::returning))]
fn return_work(w: &mut [u64], n: u64)
    ensures { w.new ≡ returning w.old n }
{
    words::put_in(w, record::place(w, n), layout::PHASE, dpc_queue::RETURNING);
    dpc_queue::raise(w, layout::RETURNED);
}

// The routine of the running work has returned.
#[tactic(auto, unfolding(crate::specs::Work::work_returned))]
pub fn returned_dpc(w: &mut [u64], address: u64, sequence: u64) -> Result<(), SchedulerError>
    ensures { outcome (done result) w.new ≡ work_returned w.old address sequence }
{
    let n = in_phase(w, address, dpc_queue::RUNNING, sequence)?;
    return_work(w, n);
    Ok(())
}

#[tactic(auto, unfolding(crate::specs::Work::idle))]
fn restore(w: &mut [u64], n: u64)
    ensures { w.new ≡ idle w.old n }
{
    words::put_in(w, record::place(w, n), layout::PHASE, dpc_queue::IDLE);
    dpc_queue::raise(w, layout::RESTORED);
    words::put(w, layout::ACTIVE, 0);
}

// The caller of the returning work is restored: the work ends.
#[tactic(auto, unfolding(crate::specs::Work::work_restored))]
pub fn restored_dpc(w: &mut [u64], address: u64, sequence: u64) -> Result<(), SchedulerError>
    ensures { outcome (done result) w.new ≡ work_restored w.old address sequence }
{
    let n = in_phase(w, address, dpc_queue::RETURNING, sequence)?;
    restore(w, n);
    Ok(())
}
