// The lines of the calls on timers.
#![tactic(auto, unfolding(script_lex::specs::Arguments::with_one, script_lex::specs::Arguments::with_two))]

ghost use Rattle.std.specs.Prelude.{◌≡◌, Some};
ghost use Rattle.script_lex.specs.Left.{left};
ghost use Rattle.script_lex.specs.Arguments.{most, one_of, two_of, with_one, with_two};
ghost use Rattle.script_timers.specs.Timers.{manual_behind, initialize_timer_line, set_behind, set_timer_line, timer_memory_line, timer_line};
ghost use Rattle.script_lex.specs.declared.command.Command.TheVariants as command;

use super::dpc_lines;
use script_lex::command::Command;
use script_lex::lex::Words;
use script_lex::location::Location;

// Behind the location: whether the timer is reset by hand.
#[tactic(auto, unfolding(crate::specs::Timers::manual_behind, crate::specs::Timers::manual_of))]
fn read_manual(words: Words, place: Location) -> Option<Command>
    ensures { result ≡ manual_behind place.address place.architecture place.backing (left words.entry) }
{
    let manual = words.flag()?;
    words.rest().bare(Command::InitializeTimer {
        address: place.address,
        architecture: place.architecture,
        backing: place.backing,
        manual,
    })
}

#[tactic(auto, unfolding(crate::specs::Timers::initialize_timer_line, script_lex::specs::Location::with_location))]
fn read_initialize_timer(words: Words) -> Option<Command>
    ensures { result ≡ initialize_timer_line (left words.entry) }
{
    let place = words.location()?;
    read_manual(words.behind_location(), place)
}

// Behind the due time: whether it is absolute, the period and the DPC.
#[tactic(auto, unfolding(crate::specs::Timers::set_behind, crate::specs::Timers::set_of))]
fn read_period(words: Words, address: u64, due: u64) -> Option<Command>
    ensures { result ≡ set_behind address due (left words.entry) }
{
    let absolute = words.flag()?;
    let next = words.rest();
    let period = next.signed()?;
    let dpc = next.rest().only_number(u64::MAX)?;
    Some(Command::SetTimer {
        address,
        due,
        absolute,
        period,
        dpc,
    })
}

#[tactic(auto, unfolding(crate::specs::Timers::set_timer_line, script_lex::specs::Arguments::with_one))]
fn read_set_timer(words: Words) -> Option<Command>
    ensures { result ≡ set_timer_line (left words.entry) }
{
    let address = words.number(u64::MAX)?;
    let next = words.rest();
    let due = next.number(u64::MAX)?;
    read_period(next.rest(), address, due)
}

fn read_cancel_timer(words: Words) -> Option<Command>
    ensures { result ≡ with_one (λ n. Some (command.CancelTimer n)) (one_of most (left words.entry)) }
{
    words.only_number(u64::MAX).map(Command::CancelTimer)
}

fn read_timer_read_overlap(words: Words) -> Option<Command>
    ensures { result ≡ with_two (λ a b. Some (command.TimerReadOverlap a b)) (two_of most most (left words.entry)) }
{
    let (address, size) = words.two_numbers(u64::MAX, u64::MAX)?;
    Some(Command::TimerReadOverlap { address, size })
}

fn read_timer_metadata_overlap(words: Words) -> Option<Command>
    ensures { result ≡ with_two (λ a b. Some (command.TimerMetadataOverlap a b)) (two_of most most (left words.entry)) }
{
    let (address, size) = words.two_numbers(u64::MAX, u64::MAX)?;
    Some(Command::TimerMetadataOverlap { address, size })
}

fn read_require_timer_release(words: Words) -> Option<Command>
    ensures { result ≡ with_two (λ a b. Some (command.RequireTimerRelease a b)) (two_of most most (left words.entry)) }
{
    let (address, size) = words.two_numbers(u64::MAX, u64::MAX)?;
    Some(Command::RequireTimerRelease { address, size })
}

fn read_retire_timer_backing(words: Words) -> Option<Command>
    ensures { result ≡ with_two (λ a b. Some (command.RetireTimerBacking a b)) (two_of most most (left words.entry)) }
{
    let (address, size) = words.two_numbers(u64::MAX, u64::MAX)?;
    Some(Command::RetireTimerBacking { address, size })
}

// The lines of a stretch of memory.
#[tactic(auto, unfolding(crate::specs::Timers::timer_memory_line))]
fn read_timer_memory(words: Words) -> Option<Command>
    ensures { result ≡ timer_memory_line (left words.entry) }
{
    let rest = words.rest();
    if words.is(b"timer_read_overlap") {
        return read_timer_read_overlap(rest);
    }
    if words.is(b"timer_metadata_overlap") {
        return read_timer_metadata_overlap(rest);
    }
    if words.is(b"require_timer_release") {
        return read_require_timer_release(rest);
    }
    if words.is(b"retire_timer_backing") {
        return read_retire_timer_backing(rest);
    }
    dpc_lines::read_dpcs(words)
}

#[tactic(auto, unfolding(crate::specs::Timers::timer_line))]
pub fn read_timers(words: Words) -> Option<Command>
    ensures { result ≡ timer_line (left words.entry) }
{
    let rest = words.rest();
    if words.is(b"initialize_timer") {
        return read_initialize_timer(rest);
    }
    if words.is(b"set_timer") {
        return read_set_timer(rest);
    }
    if words.is(b"cancel_timer") {
        return read_cancel_timer(rest);
    }
    if words.is(b"timer_initializations") {
        return rest.bare(Command::TimerInitializations);
    }
    read_timer_memory(words)
}
