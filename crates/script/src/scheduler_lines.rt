// The lines of the scheduler's calls, by their first word. Each reader of one line starts behind that word.
#![tactic(auto, unfolding(script_lex::specs::Arguments::with_one, script_lex::specs::Arguments::with_two, script_lex::specs::Arguments::with_three))]

ghost use Rattle.std.specs.Prelude.{◌≡◌, Some};
ghost use Rattle.script_lex.specs.Left.{left};
ghost use Rattle.script_lex.specs.Arguments.{most, one_of, two_of, three_of, with_one, with_two, with_three};
ghost use Rattle.script.specs.Scheduler.{flagged, event_line, owned_by, adopt_line, short_line, mutex_line, events_line, thread_line};
ghost use Rattle.script_lex.specs.declared.command.Command.TheVariants as command;

use script_lex::command::Command;
use script_lex::lex::Words;
use script_timers::{clock_lines, timer_lines};

fn read_open(words: Words) -> Option<Command>
    ensures { result ≡ with_one (λ n. Some (command.Open n)) (one_of 255 (left words.entry)) }
{
    words.only_number(255).map(Command::Open)
}

// Behind the key: the two flags.
#[tactic(auto, unfolding(crate::specs::Scheduler::flagged, crate::specs::Scheduler::with_flags))]
fn read_flags(words: Words, key: u64) -> Option<Command>
    ensures { result ≡ flagged key (left words.entry) }
{
    let manual = words.flag()?;
    let next = words.rest();
    let signaled = next.flag()?;
    next.rest().bare(Command::Event {
        key,
        manual,
        signaled,
    })
}

#[tactic(auto, unfolding(crate::specs::Scheduler::event_line, script_lex::specs::Arguments::with_one))]
fn read_event(words: Words) -> Option<Command>
    ensures { result ≡ event_line (left words.entry) }
{
    let key = words.number(u64::MAX)?;
    read_flags(words.rest(), key)
}

fn read_create(words: Words) -> Option<Command>
    ensures { result ≡ with_one (λ n. Some (command.Create n)) (one_of 255 (left words.entry)) }
{
    words.only_number(255).map(Command::Create)
}

fn read_set(words: Words) -> Option<Command>
    ensures { result ≡ with_one (λ n. Some (command.Set n)) (one_of most (left words.entry)) }
{
    words.only_number(u64::MAX).map(Command::Set)
}

fn read_mutex_owner(words: Words) -> Option<Command>
    ensures { result ≡ with_one (λ n. Some (command.MutexOwner n)) (one_of most (left words.entry)) }
{
    words.only_number(u64::MAX).map(Command::MutexOwner)
}

fn read_mutex_waiters(words: Words) -> Option<Command>
    ensures { result ≡ with_one (λ n. Some (command.MutexWaiters n)) (one_of most (left words.entry)) }
{
    words.only_number(u64::MAX).map(Command::MutexWaiters)
}

fn read_initialize_mutex(words: Words) -> Option<Command>
    ensures { result ≡ with_one (λ n. Some (command.InitializeMutex n)) (one_of most (left words.entry)) }
{
    words.only_number(u64::MAX).map(Command::InitializeMutex)
}

fn read_release_mutex(words: Words) -> Option<Command>
    ensures { result ≡ with_one (λ n. Some (command.ReleaseMutex n)) (one_of most (left words.entry)) }
{
    words.only_number(u64::MAX).map(Command::ReleaseMutex)
}

fn read_reset_event(words: Words) -> Option<Command>
    ensures { result ≡ with_one (λ n. Some (command.ResetEvent n)) (one_of most (left words.entry)) }
{
    words.only_number(u64::MAX).map(Command::ResetEvent)
}

fn read_advance_to(words: Words) -> Option<Command>
    ensures { result ≡ with_one (λ n. Some (command.AdvanceTo n)) (one_of most (left words.entry)) }
{
    words.only_number(u64::MAX).map(Command::AdvanceTo)
}

fn read_terminate(words: Words) -> Option<Command>
    ensures { result ≡ with_one (λ n. Some (command.Terminate n)) (one_of 4294967295 (left words.entry)) }
{
    let n = words.only_number(4_294_967_295)?;
    Some(Command::Terminate(n as u32))
}

fn read_priority(words: Words) -> Option<Command>
    ensures { result ≡ with_two (λ a b. Some (command.Priority a b)) (two_of most 255 (left words.entry)) }
{
    let (id, priority) = words.two_numbers(u64::MAX, 255)?;
    Some(Command::Priority { id, priority })
}

fn read_delay_until(words: Words) -> Option<Command>
    ensures { result ≡ with_two (λ a b. Some (command.DelayUntil a b)) (two_of most 255 (left words.entry)) }
{
    let (deadline, irql) = words.two_numbers(u64::MAX, 255)?;
    Some(Command::DelayUntil {
        deadline,
        irql: irql as u8,
    })
}

fn read_require_event_release(words: Words) -> Option<Command>
    ensures { result ≡ with_three (λ a b c. Some (command.RequireEventRelease a b c)) (three_of (left words.entry)) }
{
    let (base, size, layout) = words.three_numbers()?;
    Some(Command::RequireEventRelease { base, size, layout })
}

fn read_retire_event_backing(words: Words) -> Option<Command>
    ensures { result ≡ with_three (λ a b c. Some (command.RetireEventBacking a b c)) (three_of (left words.entry)) }
{
    let (base, size, layout) = words.three_numbers()?;
    Some(Command::RetireEventBacking { base, size, layout })
}

// Behind the key: `none`, or the owner.
#[tactic(auto, unfolding(crate::specs::Scheduler::owned_by, script_lex::specs::Arguments::with_one))]
fn read_owner(words: Words, key: u64) -> Option<Command>
    ensures { result ≡ owned_by key (left words.entry) }
{
    if words.is(b"none") {
        return words.rest().bare(Command::AdoptMutex { key, owner: None });
    }
    let owner = words.only_number(u64::MAX)?;
    Some(Command::AdoptMutex {
        key,
        owner: Some(owner),
    })
}

#[tactic(auto, unfolding(crate::specs::Scheduler::adopt_line, script_lex::specs::Arguments::with_one))]
fn read_adopt_mutex(words: Words) -> Option<Command>
    ensures { result ≡ adopt_line (left words.entry) }
{
    let key = words.number(u64::MAX)?;
    read_owner(words.rest(), key)
}

#[tactic(auto, unfolding(crate::specs::Scheduler::thread_line))]
fn read_threads(words: Words) -> Option<Command>
    ensures { result ≡ thread_line (left words.entry) }
{
    let rest = words.rest();
    if words.is(b"current") {
        return rest.bare(Command::Current);
    }
    if words.is(b"priority") {
        return read_priority(rest);
    }
    if words.is(b"terminate") {
        return read_terminate(rest);
    }
    if words.is(b"delay_until") {
        return read_delay_until(rest);
    }
    if words.is(b"advance_to") {
        return read_advance_to(rest);
    }
    if words.is(b"clock") {
        return clock_lines::read_clock(rest);
    }
    timer_lines::read_timers(words)
}

#[tactic(auto, unfolding(crate::specs::Scheduler::events_line))]
fn read_events(words: Words) -> Option<Command>
    ensures { result ≡ events_line (left words.entry) }
{
    let rest = words.rest();
    if words.is(b"reset_event") {
        return read_reset_event(rest);
    }
    if words.is(b"require_event_release") {
        return read_require_event_release(rest);
    }
    if words.is(b"retire_event_backing") {
        return read_retire_event_backing(rest);
    }
    read_threads(words)
}

#[tactic(auto, unfolding(crate::specs::Scheduler::mutex_line))]
fn read_mutexes(words: Words) -> Option<Command>
    ensures { result ≡ mutex_line (left words.entry) }
{
    let rest = words.rest();
    if words.is(b"initialize_mutex") {
        return read_initialize_mutex(rest);
    }
    if words.is(b"adopt_mutex") {
        return read_adopt_mutex(rest);
    }
    if words.is(b"mutex_owner") {
        return read_mutex_owner(rest);
    }
    if words.is(b"mutex_waiters") {
        return read_mutex_waiters(rest);
    }
    if words.is(b"release_mutex") {
        return read_release_mutex(rest);
    }
    read_events(words)
}

#[tactic(auto, unfolding(crate::specs::Scheduler::short_line))]
pub fn read_short(words: Words) -> Option<Command>
    ensures { result ≡ short_line (left words.entry) }
{
    let rest = words.rest();
    if words.is(b"open") {
        return read_open(rest);
    }
    if words.is(b"event") {
        return read_event(rest);
    }
    if words.is(b"create") {
        return read_create(rest);
    }
    if words.is(b"dispatch") {
        return rest.bare(Command::Dispatch);
    }
    if words.is(b"set") {
        return read_set(rest);
    }
    if words.is(b"yield") {
        return rest.bare(Command::Yield);
    }
    read_mutexes(words)
}
