// A record that a call answers, in lent words: a tag, and the record's values behind it.
ghost use Rattle.std.specs.Prelude.{◌≡◌, List, ℕ};
ghost use Rattle.answers.specs.Errors.{told_by};
ghost use Rattle.calls.specs.Guard.{Kind, Code};
ghost use Rattle.calls.specs.Guard as kind;
ghost use Rattle.dispatcher.specs.Read as read;
ghost use Rattle.dispatcher.specs.PlaceAnswer as place;
ghost use Rattle.dispatcher.specs.ThreadAnswer as thread;
ghost use Rattle.dpc_reads.specs.Reads as dpcs;
ghost use Rattle.dpc_reads.specs.CountersAnswer as counters;
ghost use Rattle.dpc_reads.specs.DpcAnswer as dpc;
ghost use Rattle.dpc_reads.specs.PolicyAnswer as policy;
ghost use Rattle.dpc_work.specs.Work.{Started};
ghost use Rattle.dpc_work.specs.WorkAnswer as started;
ghost use Rattle.timers.specs.Reads as timers;
ghost use Rattle.timers.specs.TimerAnswer as timer;
ghost use Rattle.exports.specs.SchedulerAnswer.{given};
ghost use Rattle.exports.specs.RecordCall.{room, read_by, started_by, by_number, Puts, Tells, Starts};
ghost use Rattle.exports.specs.RecordAnswer.{
  located_in,
  state_in,
  setting_in,
  timer_in,
  origin_in,
  work_in,
  busy_in,
  phase_in,
  dpc_in,
  started_in,
  counters_in,
  pair_in,
  wait_in,
  thread_in,
  work_refusal,
  work_answer_in,
  told_by_number,
  refusal_as,
  answer_as,
};

use super::scheduler_answer::{flag, tag};
use super::tags;
use answers::error::SchedulerError;
use arch::Architecture;
use dispatcher::read::{Place, ThreadView};
use dpc_reads::{DpcCounters, DpcPolicy};
use images::{Dpc, DpcOrigin, DpcPhase, DpcWork, Timer, TimerBacking};

// A tag, and where a timer or a DPC stands.
fn put_located(out: &mut [u64], t: u64, address: u64, a: Architecture, b: TimerBacking)
    ensures { out.new ≡ located_in out.old t address a b }
{
    words::put(out, 0, t);
    words::put(out, 1, address);
    words::put(out, 2, images::architecture_number(a));
    words::put(out, 3, images::backing_kind(b));
    words::put(out, 4, images::backing_base(b));
    words::put(out, 5, images::backing_size(b));
    words::put(out, 6, images::backing_mapped(b));
}

// ---- a timer

fn put_state(out: &mut [u64], t: Timer)
    ensures { out.new ≡ state_in out.old t }
{
    words::put(out, 7, flag(t.manual_reset));
    words::put(out, 8, flag(t.signaled));
    words::put(out, 9, flag(t.inserted));
}

fn put_setting(out: &mut [u64], t: Timer)
    ensures { out.new ≡ setting_in out.old t }
{
    words::put(out, 10, t.due);
    words::put(out, 11, t.period_ms);
    words::put(out, 12, t.dpc);
    words::put(out, 13, flag(t.absolute));
    words::put(out, 14, t.arm_generation);
    words::put(out, 15, t.initialization);
}

// Answers 0, which no refusal is.
fn put_timer(out: &mut [u64], t: Timer) -> u64
    ensures { (result ≡ 0) × (out.new ≡ timer_in out.old t) }
{
    let a = t.architecture;
    let b = t.backing;
    put_located(out, tags::TIMER, t.address, a, b);
    put_state(out, t);
    put_setting(out, t);
    0
}

// ---- work, from word `at` on

fn put_origin(out: &mut [u64], at: usize, o: DpcOrigin)
    ensures { out.new ≡ origin_in out.old at o }
{
    match o {
        DpcOrigin::Caller => words::put_in(out, at, 3, 0),
        DpcOrigin::Timer {
            address,
            arm,
            initialization,
            deadline,
            observed,
            periodic,
        } => {
            words::put_in(out, at, 3, 1);
            words::put_in(out, at, 4, address);
            words::put_in(out, at, 5, arm);
            words::put_in(out, at, 6, initialization);
            words::put_in(out, at, 7, deadline);
            words::put_in(out, at, 8, observed);
            words::put_in(out, at, 9, flag(periodic));
        }
    }
}

fn put_work(out: &mut [u64], at: usize, w: DpcWork)
    ensures { out.new ≡ work_in out.old at w }
{
    let o = w.origin;
    words::put_in(out, at, 0, w.sequence);
    words::put_in(out, at, 1, w.first);
    words::put_in(out, at, 2, w.second);
    put_origin(out, at, o);
}

// ---- a DPC

// The phase's number, and its work behind it.
fn put_busy(out: &mut [u64], phase: u64, w: DpcWork)
    ensures { out.new ≡ busy_in out.old phase w }
{
    words::put(out, 9, phase);
    put_work(out, 10, w);
}

fn put_phase(out: &mut [u64], p: DpcPhase)
    ensures { out.new ≡ phase_in out.old p }
{
    match p {
        DpcPhase::Idle => words::put(out, 9, 0),
        DpcPhase::Queued(w) => put_busy(out, 1, w),
        DpcPhase::Running(w) => put_busy(out, 2, w),
        DpcPhase::Returning(w) => put_busy(out, 3, w),
    }
}

fn put_dpc(out: &mut [u64], d: Dpc) -> u64
    ensures { (result ≡ 0) × (out.new ≡ dpc_in out.old d) }
{
    let a = d.architecture;
    let b = d.backing;
    let p = d.phase;
    put_located(out, tags::DPC, d.address, a, b);
    words::put(out, 7, d.routine);
    words::put(out, 8, d.context);
    put_phase(out, p);
    0
}

// ---- the others

fn put_started(out: &mut [u64], w: DpcWork) -> u64
    ensures { (result ≡ 0) × (out.new ≡ started_in out.old w) }
{
    words::put(out, 0, tags::WORK);
    put_work(out, 1, w);
    0
}

fn put_counters(out: &mut [u64], n: DpcCounters) -> u64
    ensures { (result ≡ 0) × (out.new ≡ counters_in out.old n) }
{
    words::put(out, 0, tags::COUNTERS);
    words::put(out, 1, n.accepted);
    words::put(out, 2, n.duplicates);
    words::put(out, 3, n.removed);
    words::put(out, 4, n.started);
    words::put(out, 5, n.returned);
    words::put(out, 6, n.restored);
    0
}

// Two values behind a tag.
fn put_pair(out: &mut [u64], t: u64, first: u64, second: u64) -> u64
    ensures { (result ≡ 0) × (out.new ≡ pair_in out.old t first second) }
{
    words::put(out, 0, t);
    words::put(out, 1, first);
    words::put(out, 2, second);
    0
}

fn put_wait(out: &mut [u64], t: ThreadView)
    ensures { out.new ≡ wait_in out.old t }
{
    words::put(out, 6, t.all);
    words::put(out, 7, t.timed);
    words::put(out, 8, t.deadline);
    words::put(out, 9, t.sequence);
    words::put(out, 10, t.count);
}

fn put_thread(out: &mut [u64], t: ThreadView) -> u64
    ensures { (result ≡ 0) × (out.new ≡ thread_in out.old t) }
{
    words::put(out, 0, tags::THREAD_RECORD);
    words::put(out, 1, t.id);
    words::put(out, 2, t.priority);
    words::put(out, 3, t.state);
    words::put(out, 4, t.result);
    words::put(out, 5, t.status);
    put_wait(out, t);
    0
}

// ---- answers: the record written to `out`; the number of a refusal, which writes nothing. Each record has a tag and a writer of its own: a
// trait over them would say the two again for each. A refusal is any number, not only one of document 01's table.

#[tactic(auto, unfolding(crate::specs::RecordAnswer::refusal_as, crate::specs::RecordAnswer::answer_as))]
pub fn put_timer_answer(out: &mut [u64], called: Result<Option<Timer>, u64>) -> u64
    ensures { (result ≡ refusal_as kind.timers (told_by_number timers.told timer.Refused called)) × (out.new ≡ answer_as kind.timers out.old (told_by_number timers.told timer.Refused called)) }
{
    match called {
        Ok(Some(t)) => put_timer(out, t),
        Ok(None) => tag(out, tags::NONE),
        Err(number) => number,
    }
}

#[tactic(auto, unfolding(crate::specs::RecordAnswer::refusal_as, crate::specs::RecordAnswer::answer_as))]
pub fn put_dpc_answer(out: &mut [u64], called: Result<Option<Dpc>, u64>) -> u64
    ensures { (result ≡ refusal_as kind.dpcs (told_by_number dpcs.told dpc.Refused called)) × (out.new ≡ answer_as kind.dpcs out.old (told_by_number dpcs.told dpc.Refused called)) }
{
    match called {
        Ok(Some(d)) => put_dpc(out, d),
        Ok(None) => tag(out, tags::NONE),
        Err(number) => number,
    }
}

pub fn put_work_answer(out: &mut [u64], called: Result<DpcWork, u64>) -> u64
    ensures { (result ≡ work_refusal (told_by_number started.Work started.Refused called)) × (out.new ≡ work_answer_in out.old (told_by_number started.Work started.Refused called)) }
{
    match called {
        Ok(w) => put_started(out, w),
        Err(number) => number,
    }
}

#[tactic(auto, unfolding(crate::specs::RecordAnswer::refusal_as, crate::specs::RecordAnswer::answer_as))]
pub fn put_policy_answer(out: &mut [u64], called: Result<DpcPolicy, u64>) -> u64
    ensures { (result ≡ refusal_as kind.policies (told_by_number dpcs.selected policy.Refused called)) × (out.new ≡ answer_as kind.policies out.old (told_by_number dpcs.selected policy.Refused called)) }
{
    match called {
        Ok(DpcPolicy::Unselected) => tag(out, tags::NO_POLICY),
        Ok(DpcPolicy::Cpu0Dispatch { first, second }) => put_pair(out, tags::POLICY, first, second),
        Err(number) => number,
    }
}

#[tactic(auto, unfolding(crate::specs::RecordAnswer::refusal_as, crate::specs::RecordAnswer::answer_as))]
pub fn put_counters_answer(out: &mut [u64], called: Result<DpcCounters, u64>) -> u64
    ensures { (result ≡ refusal_as kind.counts (told_by_number counters.Counters counters.Refused called)) × (out.new ≡ answer_as kind.counts out.old (told_by_number counters.Counters counters.Refused called)) }
{
    match called {
        Ok(n) => put_counters(out, n),
        Err(number) => number,
    }
}

#[tactic(auto, unfolding(crate::specs::RecordAnswer::refusal_as, crate::specs::RecordAnswer::answer_as))]
pub fn put_thread_answer(out: &mut [u64], called: Result<Option<ThreadView>, u64>) -> u64
    ensures { (result ≡ refusal_as kind.threads (told_by_number read.told_thread thread.Refused called)) × (out.new ≡ answer_as kind.threads out.old (told_by_number read.told_thread thread.Refused called)) }
{
    match called {
        Ok(Some(t)) => put_thread(out, t),
        Ok(None) => tag(out, tags::NONE),
        Err(number) => number,
    }
}

#[tactic(auto, unfolding(crate::specs::RecordAnswer::refusal_as, crate::specs::RecordAnswer::answer_as))]
pub fn put_place_answer(out: &mut [u64], called: Result<Option<Place>, u64>) -> u64
    ensures { (result ≡ refusal_as kind.places (told_by_number read.told_place place.Refused called)) × (out.new ≡ answer_as kind.places out.old (told_by_number read.told_place place.Refused called)) }
{
    match called {
        Ok(Some(p)) => put_pair(out, tags::OBJECT, p.kind, p.key),
        Ok(None) => tag(out, tags::NONE),
        Err(number) => number,
    }
}

// A refusal of the calls by its number.
#[tactic(auto, unfolding(crate::specs::RecordCall::by_number))]
fn by_number<T>(called: Result<T, SchedulerError>) -> Result<T, u64>
    ensures { result ≡ by_number called }
{
    match called {
        Ok(answer) => Ok(answer),
        Err(error) => Err(error.number()),
    }
}

// ---- the same of what a read answers, where `out` has room for a record; else 27, and no read

// What `put` writes of what `read` answers, where there is room for it.
fn in_room<A, R: FnOnce() -> A, P: FnOnce(&mut [u64], A) -> u64>(
    out: &mut [u64],
    read: R,
    put: P,
) -> u64
    requires reads { R.IsAlwaysCallable read }
    requires puts { P.IsAlwaysCallable put }
    ensures { (k : Kind) → room k ≡ 24 → (a : Code k) → Puts (R.post read) (P.post put) k a → (w : List ℕ) → given result w out.new ≡ read_by k w out.old a }
{
    if out.len() < 24 {
        return SchedulerError::OutOfForm.number();
    }
    let answer = read();
    put(out, answer)
}

pub fn timer_answer<F: FnOnce() -> Result<Option<Timer>, SchedulerError>>(
    out: &mut [u64],
    called: F,
) -> u64
    requires { F.IsAlwaysCallable called }
    ensures { (a : Code kind.timers) → Tells (F.post called) (told_by timers.told timer.Refused) a → (w : List ℕ) → given result w out.new ≡ read_by kind.timers w out.old a }
{
    in_room(
        out,
        called,
        |out, called| put_timer_answer(out, by_number(called)),
    )
}

pub fn dpc_answer<F: FnOnce() -> Result<Option<Dpc>, SchedulerError>>(
    out: &mut [u64],
    called: F,
) -> u64
    requires { F.IsAlwaysCallable called }
    ensures { (a : Code kind.dpcs) → Tells (F.post called) (told_by dpcs.told dpc.Refused) a → (w : List ℕ) → given result w out.new ≡ read_by kind.dpcs w out.old a }
{
    in_room(
        out,
        called,
        |out, called| put_dpc_answer(out, by_number(called)),
    )
}

pub fn policy_answer<F: FnOnce() -> Result<DpcPolicy, SchedulerError>>(
    out: &mut [u64],
    called: F,
) -> u64
    requires { F.IsAlwaysCallable called }
    ensures { (a : Code kind.policies) → Tells (F.post called) (told_by dpcs.selected policy.Refused) a → (w : List ℕ) → given result w out.new ≡ read_by kind.policies w out.old a }
{
    in_room(
        out,
        called,
        |out, called| put_policy_answer(out, by_number(called)),
    )
}

pub fn counters_answer<F: FnOnce() -> Result<DpcCounters, SchedulerError>>(
    out: &mut [u64],
    called: F,
) -> u64
    requires { F.IsAlwaysCallable called }
    ensures { (a : Code kind.counts) → Tells (F.post called) (told_by counters.Counters counters.Refused) a → (w : List ℕ) → given result w out.new ≡ read_by kind.counts w out.old a }
{
    in_room(
        out,
        called,
        |out, called| put_counters_answer(out, by_number(called)),
    )
}

pub fn thread_answer<F: FnOnce() -> Result<Option<ThreadView>, SchedulerError>>(
    out: &mut [u64],
    called: F,
) -> u64
    requires { F.IsAlwaysCallable called }
    ensures { (a : Code kind.threads) → Tells (F.post called) (told_by read.told_thread thread.Refused) a → (w : List ℕ) → given result w out.new ≡ read_by kind.threads w out.old a }
{
    in_room(
        out,
        called,
        |out, called| put_thread_answer(out, by_number(called)),
    )
}

pub fn place_answer<F: FnOnce() -> Result<Option<Place>, SchedulerError>>(
    out: &mut [u64],
    called: F,
) -> u64
    requires { F.IsAlwaysCallable called }
    ensures { (a : Code kind.places) → Tells (F.post called) (told_by read.told_place place.Refused) a → (w : List ℕ) → given result w out.new ≡ read_by kind.places w out.old a }
{
    in_room(
        out,
        called,
        |out, called| put_place_answer(out, by_number(called)),
    )
}

// A call that starts work, and the work written to `out`; without room for it 27, and no call.
pub fn start<F: FnOnce(&mut [u64]) -> Result<DpcWork, SchedulerError>>(
    words: &mut [u64],
    out: &mut [u64],
    call: F,
) -> u64
    requires { F.IsAlwaysCallable call }
    ensures { (f : List ℕ → Started) → Starts (F.post call) f → given result words.new out.new ≡ started_by words.old out.old (f words.old) }
{
    if out.len() < 24 {
        return SchedulerError::OutOfForm.number();
    }
    let answer = call(words);
    put_work_answer(out, by_number(answer))
}
