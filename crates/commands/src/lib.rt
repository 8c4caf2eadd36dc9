// The commands of a script on the scheduler's words: each makes the call that the table says.
#![tactic(auto)]

ghost use Rattle.std.specs.Prelude.{◌≡◌, Some};
ghost use Rattle.answers.specs.Outcome.{outcome};
ghost use Rattle.commands.specs.Commands as spec;
ghost use Rattle.dpc_work.specs.Work as work;

use answers::Answer;
use answers::error::SchedulerError;
use images::DpcWork;
use scheduler::{changes, dpc_calls, reads, timer_calls};
use script_lex::command::Command;
use script_print::bare;

// What `start_dpc` prints of the work: its sequence. A match, since the check did not find what `map` and `into` give one after the other.
#[tactic(auto, unfolding(crate::specs::Commands::sequence_of))]
fn sequence_of(started: Result<DpcWork, SchedulerError>) -> Answer
    ensures { result ≡ spec.sequence_of (work.told started) }
{
    match started {
        Ok(work) => Answer::Count(work.sequence),
        Err(error) => error.into(),
    }
}

// The kinds and keys are the first `count` numbers of the list. An `Answer`: what a script prints of a call is told in that type.
fn wait(
    w: &mut [u64],
    list: &[u64],
    all: bool,
    deadline: Option<u64>,
    irql: u8,
    count: usize,
) -> Answer
    ensures { outcome result w.new ≡ spec.waited w.old list.now all deadline irql count }
{
    if list.len() < count {
        return Answer::Refused(28);
    }
    changes::wait(w, &list[..count], all, deadline, irql).into()
}

// The commands on the scheduler's words, but for a dispatch; another is none of them. An `Answer`, as `wait` gives.
pub fn on_words(w: &mut [u64], list: &[u64], c: Command) -> Answer
    ensures { outcome result w.new ≡ spec.on_words w.old (spec.asked list.now (Some c)) }
{
    match c {
        Command::Event {
            key,
            manual,
            signaled,
        } => changes::initialize_event(w, key, manual, signaled).into(),
        Command::Create(p) => changes::create_thread(w, p).into(),
        Command::Wait {
            all,
            deadline,
            irql,
            count,
        } => wait(w, list, all, deadline, irql, count),
        Command::Set(key) => changes::set_event(w, key).into(),
        Command::Yield => changes::yield_current(w).into(),
        Command::Current => bare(reads::current(w).into()),
        Command::RequireEventRelease { base, size, layout } => reads::require_event_release(
            w, base, size, layout,
        ).into(),
        Command::RetireEventBacking { base, size, layout } => changes::retire_event_backing(
            w, base, size, layout,
        ).into(),
        Command::MutexOwner(key) => bare(reads::mutex_owner(w, key).into()),
        Command::AdoptMutex { key, owner } => changes::adopt_mutex(w, key, owner).into(),
        Command::MutexWaiters(key) => reads::mutex_waiters(w, key).into(),
        Command::Priority { id, priority } => changes::priority(w, id, priority).into(),
        Command::InitializeMutex(key) => changes::initialize_mutex(w, key).into(),
        Command::DelayUntil { deadline, irql } => changes::delay_until(w, deadline, irql).into(),
        Command::AdvanceTo(time) => changes::advance_to(w, time).into(),
        Command::ReleaseMutex(key) => changes::release_mutex(w, key).into(),
        Command::ResetEvent(key) => changes::reset_event(w, key).into(),
        Command::Terminate(status) => changes::terminate(w, status).into(),
        Command::TimerInitializations => timer_calls::timer_initializations(w).into(),
        Command::DpcInitializations => dpc_calls::dpc_initializations(w).into(),
        Command::TimerReadOverlap { address, size } => timer_calls::timer_read_overlap(
            w, address, size,
        ).into(),
        Command::TimerMetadataOverlap { address, size } => timer_calls::timer_metadata_overlap(
            w, address, size,
        ).into(),
        Command::InitializeTimer {
            address,
            architecture,
            backing,
            manual,
        } => timer_calls::initialize_timer(w, address, architecture, backing, manual).into(),
        Command::InitializeDpc {
            address,
            architecture,
            backing,
            routine,
            context,
        } => timer_calls::initialize_dpc(
            w,
            address,
            architecture,
            backing,
            routine,
            context,
        ).into(),
        Command::SetTimer {
            address,
            due,
            absolute,
            period,
            dpc,
        } => timer_calls::set_timer(w, address, due, absolute, period, dpc).into(),
        Command::CancelTimer(address) => timer_calls::cancel_timer(w, address).into(),
        Command::RequireTimerRelease { address, size } => timer_calls::require_timer_release(
            w, address, size,
        ).into(),
        Command::RetireTimerBacking { address, size } => timer_calls::retire_timer_backing(
            w, address, size,
        ).into(),
        Command::ConfigureDpcDispatch { first, second } => dpc_calls::configure_dpc_dispatch(
            w, first, second,
        ).into(),
        Command::QueuedDpcs(position) => dpc_calls::queued_dpcs(w, position).into(),
        Command::InsertQueueDpc {
            address,
            first,
            second,
        } => dpc_calls::insert_queue_dpc(w, address, first, second).into(),
        Command::RemoveQueueDpc(address) => dpc_calls::remove_queue_dpc(w, address).into(),
        Command::StartDpc(address) => sequence_of(dpc_calls::start_dpc(w, address)),
        Command::ReturnedDpc { address, sequence } => dpc_calls::returned_dpc(
            w, address, sequence,
        ).into(),
        Command::RestoredDpc { address, sequence } => dpc_calls::restored_dpc(
            w, address, sequence,
        ).into(),
        _ => Answer::Refused(28),
    }
}
