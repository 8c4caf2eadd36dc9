// What a command does to a bench: the scheduler in its words, and a clock.
ghost use Rattle.std.specs.Prelude.{◌≡◌, Some};
ghost use Rattle.commands.specs.Commands.{asked};
ghost use Rattle.runner.specs.Session as spec;

use answers::Answer;
use clock::{ClockError, GuestClock, Outcome, by_value};
use scheduler::changes;
use script_lex::command::Command;

// Threads, objects and DPCs of a script's scheduler. It needs 6912 words.
pub const THREADS: u64 = 16;

pub const OBJECTS: u64 = 64;

pub const DPCS: u64 = 64;

// Whether an `open` has been accepted, and the clock, once a `clock new` has been. A flag: the words that are open are lent anew with each line.
#[derive(Clone, Copy)]
pub struct Session {
    pub opened: bool,
    pub clock: Option<GuestClock>,
}

#[derive(Clone, Copy)]
pub struct Step {
    pub answer: Answer,
    pub session: Session,
}

#[tactic(auto, unfolding(crate::specs::Session::begin))]
pub fn start() -> Session
    ensures { result ≡ spec.begin }
{
    Session {
        opened: false,
        clock: None,
    }
}

fn unchanged(s: Session, a: Answer) -> Step
    ensures { result ≡ spec.unchanged s a }
{
    Step {
        answer: a,
        session: s,
    }
}

// ---- a clock. Its answers become ours by functions, no From: neither type is this crate's

#[tactic(auto, unfolding(crate::specs::Session::done_answer))]
fn done_answer(done: Result<(), ClockError>) -> Answer
    ensures { result ≡ spec.done_answer done }
{
    match done {
        Ok(()) => Answer::Done,
        Err(why) => Answer::Refused(u64::from(why)),
    }
}

#[tactic(auto, unfolding(crate::specs::Session::reading_answer))]
fn reading_answer(r: Result<u64, ClockError>) -> Answer
    ensures { result ≡ spec.reading_answer r }
{
    match r {
        Ok(n) => Answer::Count(n),
        Err(why) => Answer::Refused(u64::from(why)),
    }
}

// A clock accepted takes the place of the one before.
#[tactic(auto, unfolding(crate::specs::Session::new_clock))]
fn new_clock(s: Session, made: Result<GuestClock, ClockError>) -> Step
    ensures { result ≡ spec.new_clock s made }
{
    match made {
        Ok(clock) => Step {
            answer: Answer::Done,
            session: Session {
                clock: Some(clock),
                ..s
            },
        },
        Err(why) => unchanged(s, Answer::Refused(u64::from(why))),
    }
}

// A call that may change the clock; there is none before a `clock new` has been accepted.
#[tactic(auto, unfolding(crate::specs::Session::moved))]
fn moved(s: Session, call: Option<Outcome>) -> Step
    ensures { result ≡ spec.moved s call }
{
    match call {
        Some(outcome) => Step {
            answer: done_answer(outcome.answer),
            session: Session {
                clock: Some(outcome.clock),
                ..s
            },
        },
        None => unchanged(s, Answer::Refused(28)),
    }
}

// A call that reads it.
#[tactic(auto, unfolding(crate::specs::Session::told))]
fn told(s: Session, reading: Option<Result<u64, ClockError>>) -> Step
    ensures { result ≡ spec.told s reading }
{
    match reading {
        Some(r) => unchanged(s, reading_answer(r)),
        None => unchanged(s, Answer::Refused(28)),
    }
}

// ---- commands

// A command after an `open` has been accepted: another `open` is refused with 28.
fn go_on(w: &mut [u64], waiting: &mut [u64], list: &[u64], s: Session, c: Command) -> Step
    ensures { spec.performed_as result w.new waiting.new ≡ spec.gone_on w.old waiting.old s (asked list.now (Some c)) }
{
    match c {
        Command::Dispatch => unchanged(s, changes::dispatch(w, waiting).into()),
        Command::ClockNew {
            utc,
            uptime,
            offset,
            mhz,
        } => new_clock(s, by_value::new(utc, uptime, offset, mhz)),
        Command::ClockInstruction => moved(s, s.clock.map(by_value::instruction)),
        Command::ClockAdvanceMicroseconds(n) => moved(
            s,
            s.clock.map(|c| by_value::advance_microseconds(c, n)),
        ),
        Command::ClockAdvance100ns(n) => moved(s, s.clock.map(|c| by_value::advance_100ns(c, n))),
        Command::ClockAdvanceMilliseconds(n) => moved(
            s,
            s.clock.map(|c| by_value::advance_milliseconds(c, n)),
        ),
        Command::ClockFlushCycles => moved(s, s.clock.map(by_value::flush_cycles)),
        Command::ClockObserve => moved(s, s.clock.map(by_value::observe)),
        Command::ClockQpc => told(s, s.clock.map(by_value::qpc)),
        Command::ClockTick64 => told(s, s.clock.map(by_value::tick64)),
        Command::ClockTsc => told(s, s.clock.map(by_value::tsc)),
        _ => unchanged(s, commands::on_words(w, list, c)),
    }
}

// Limits 16, 64, 64.
fn begin(w: &mut [u64], s: Session, priority: u64) -> Step
    ensures value { result ≡ spec.opened_by s (spec.opens_with w.old priority).answer }
    ensures w_after { w.new ≡ (spec.opens_with w.old priority).words }
{
    let opened = changes::open(w, priority, THREADS, OBJECTS, DPCS);
    Step {
        answer: opened.into(),
        session: Session {
            opened: opened.is_ok(),
            ..s
        },
    }
}

// A line that cannot be read is refused with 28, and before an `open` has been accepted every other line is refused with 28.
pub fn perform(
    w: &mut [u64],
    waiting: &mut [u64],
    list: &[u64],
    s: Session,
    c: Option<Command>,
) -> Step
    ensures { spec.performed_as result w.new waiting.new ≡ spec.performed w.old waiting.old list.now s c }
{
    let Some(command) = c else {
        return unchanged(s, Answer::Refused(28));
    };
    if s.opened {
        return go_on(w, waiting, list, s, command);
    }
    if let Command::Open(p) = command {
        return begin(w, s, p);
    }
    unchanged(s, Answer::Refused(28))
}
