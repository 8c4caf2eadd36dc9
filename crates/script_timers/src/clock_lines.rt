// The lines of the clock's calls, by the word behind `clock`.
#![tactic(auto, unfolding(script_lex::specs::Arguments::with_one))]

ghost use Rattle.std.specs.Prelude.{◌≡◌, Some};
ghost use Rattle.script_lex.specs.Left.{left};
ghost use Rattle.script_lex.specs.Arguments.{most, one_of, with_one};
ghost use Rattle.script_timers.specs.Clock.{new_behind, new_line, clock_line, advance_line};
ghost use Rattle.script_lex.specs.declared.command.Command.TheVariants as command;

use script_lex::command::Command;
use script_lex::lex::Words;

fn read_advance_microseconds(words: Words) -> Option<Command>
    ensures { result ≡ with_one (λ n. Some (command.ClockAdvanceMicroseconds n)) (one_of most (left words.entry)) }
{
    words
        .only_number(u64::MAX)
        .map(Command::ClockAdvanceMicroseconds)
}

fn read_advance_100ns(words: Words) -> Option<Command>
    ensures { result ≡ with_one (λ n. Some (command.ClockAdvance100ns n)) (one_of most (left words.entry)) }
{
    words.only_number(u64::MAX).map(Command::ClockAdvance100ns)
}

fn read_advance_milliseconds(words: Words) -> Option<Command>
    ensures { result ≡ with_one (λ n. Some (command.ClockAdvanceMilliseconds n)) (one_of 4294967295 (left words.entry)) }
{
    let n = words.only_number(4_294_967_295)?;
    Some(Command::ClockAdvanceMilliseconds(n as u32))
}

// Behind the two times: the offset and the megahertz.
#[tactic(auto, unfolding(crate::specs::Clock::new_behind, crate::specs::Clock::new_of))]
fn read_offset(words: Words, utc: u64, uptime: u64) -> Option<Command>
    ensures { result ≡ new_behind utc uptime (left words.entry) }
{
    let offset = words.signed()?;
    let mhz = words.rest().only_number(4_294_967_295)?;
    Some(Command::ClockNew {
        utc,
        uptime,
        offset,
        mhz: mhz as u32,
    })
}

// Like `read_set_timer` by its shape alone.
#[tactic(auto, unfolding(crate::specs::Clock::new_line, script_lex::specs::Arguments::with_one))]
fn read_new(words: Words) -> Option<Command>
    ensures { result ≡ new_line (left words.entry) }
{
    let utc = words.number(u64::MAX)?;
    let next = words.rest();
    let uptime = next.number(u64::MAX)?;
    read_offset(next.rest(), utc, uptime)
}

#[tactic(auto, unfolding(crate::specs::Clock::advance_line))]
fn read_advance(words: Words) -> Option<Command>
    ensures { result ≡ advance_line (left words.entry) }
{
    let rest = words.rest();
    if words.is(b"advance_microseconds") {
        return read_advance_microseconds(rest);
    }
    if words.is(b"advance_100ns") {
        return read_advance_100ns(rest);
    }
    if words.is(b"advance_milliseconds") {
        return read_advance_milliseconds(rest);
    }
    None
}

#[tactic(auto, unfolding(crate::specs::Clock::clock_line))]
pub fn read_clock(words: Words) -> Option<Command>
    ensures { result ≡ clock_line (left words.entry) }
{
    let rest = words.rest();
    if words.is(b"new") {
        return read_new(rest);
    }
    if words.is(b"instruction") {
        return rest.bare(Command::ClockInstruction);
    }
    if words.is(b"flush_cycles") {
        return rest.bare(Command::ClockFlushCycles);
    }
    if words.is(b"observe") {
        return rest.bare(Command::ClockObserve);
    }
    if words.is(b"qpc") {
        return rest.bare(Command::ClockQpc);
    }
    if words.is(b"tick64") {
        return rest.bare(Command::ClockTick64);
    }
    if words.is(b"tsc") {
        return rest.bare(Command::ClockTsc);
    }
    read_advance(words)
}
