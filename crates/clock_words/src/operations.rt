// The clock's calls, each on the seven words.
ghost use Rattle.std.specs.Prelude.{◌≡◌};
ghost use Rattle.clock.specs.Clock.{created, instruction, flush_cycles, observe, advance_microseconds, advance100ns, advance_milliseconds, qpc, tick64, tsc};
ghost use Rattle.clock.specs.declared.GuestClock.{GuestClock};
ghost use Rattle.clock_words.specs.ClockWords.{returned, opened, changed, read_into};

use super::{answer, change, load, store};
use clock::{ClockError, by_value};

pub fn new(
    words: &mut [u64],
    utc_filetime: u64,
    uptime_ms: u64,
    utc_offset_minutes: i32,
    base_mhz: u32,
) -> u64
    ensures { returned result words.new ≡ opened words.old (created utc_filetime uptime_ms utc_offset_minutes base_mhz) }
{
    match by_value::new(utc_filetime, uptime_ms, utc_offset_minutes, base_mhz) {
        Ok(_) if words.len() < 7 => u64::from(ClockError::OutOfForm),
        Ok(c) => {
            store(words, c);
            0
        }
        Err(why) => u64::from(why),
    }
}

pub fn instruction(words: &mut [u64]) -> u64
    ensures { returned result words.new ≡ changed instruction words.old }
{
    change(words, by_value::instruction)
}

pub fn flush_cycles(words: &mut [u64]) -> u64
    ensures { returned result words.new ≡ changed flush_cycles words.old }
{
    change(words, by_value::flush_cycles)
}

pub fn observe(words: &mut [u64]) -> u64
    ensures { returned result words.new ≡ changed observe words.old }
{
    change(words, by_value::observe)
}

pub fn advance_microseconds(words: &mut [u64], amount: u64) -> u64
    ensures { returned result words.new ≡ changed (λ (c : GuestClock). advance_microseconds c amount) words.old }
{
    change(words, |c| by_value::advance_microseconds(c, amount))
}

pub fn advance_100ns(words: &mut [u64], ticks: u64) -> u64
    ensures { returned result words.new ≡ changed (λ (c : GuestClock). advance100ns c ticks) words.old }
{
    change(words, |c| by_value::advance_100ns(c, ticks))
}

pub fn advance_milliseconds(words: &mut [u64], amount: u32) -> u64
    ensures { returned result words.new ≡ changed (λ (c : GuestClock). advance_milliseconds c amount) words.old }
{
    change(words, |c| by_value::advance_milliseconds(c, amount))
}

pub fn qpc(words: &[u64], out: &mut [u64]) -> u64
    ensures { returned result out.new ≡ read_into qpc words.now out.old }
{
    answer(out, by_value::qpc(load(words)))
}

pub fn tick64(words: &[u64], out: &mut [u64]) -> u64
    ensures { returned result out.new ≡ read_into tick64 words.now out.old }
{
    answer(out, by_value::tick64(load(words)))
}

pub fn tsc(words: &[u64], out: &mut [u64]) -> u64
    ensures { returned result out.new ≡ read_into tsc words.now out.old }
{
    answer(out, by_value::tsc(load(words)))
}
