// The clock's calls, each on the seven words of `clock_words`.
ghost use Rattle.std.specs.Prelude.{◌≡◌};
ghost use Rattle.clock.specs.Clock.{created, instruction, flush_cycles, observe, advance_microseconds, advance100ns, advance_milliseconds, qpc, tick64, tsc};
ghost use Rattle.clock.specs.declared.GuestClock.{GuestClock};
ghost use Rattle.clock_words.specs.ClockWords.{returned, opened, changed, read_into};

#[unsafe(no_mangle)]
pub extern "C" fn clock_new(
    words: &mut [u64],
    utc_filetime: u64,
    uptime_ms: u64,
    utc_offset_minutes: i32,
    base_mhz: u32,
) -> u64
    ensures { returned result words.new ≡ opened words.old (created utc_filetime uptime_ms utc_offset_minutes base_mhz) }
{
    exports::clock_calls::clock_new(words, utc_filetime, uptime_ms, utc_offset_minutes, base_mhz)
}

#[unsafe(no_mangle)]
pub extern "C" fn clock_instruction(words: &mut [u64]) -> u64
    ensures { returned result words.new ≡ changed instruction words.old }
{
    exports::clock_calls::clock_instruction(words)
}

#[unsafe(no_mangle)]
pub extern "C" fn clock_flush_cycles(words: &mut [u64]) -> u64
    ensures { returned result words.new ≡ changed flush_cycles words.old }
{
    exports::clock_calls::clock_flush_cycles(words)
}

#[unsafe(no_mangle)]
pub extern "C" fn clock_observe(words: &mut [u64]) -> u64
    ensures { returned result words.new ≡ changed observe words.old }
{
    exports::clock_calls::clock_observe(words)
}

#[unsafe(no_mangle)]
pub extern "C" fn clock_advance_microseconds(words: &mut [u64], amount: u64) -> u64
    ensures { returned result words.new ≡ changed (λ (c : GuestClock). advance_microseconds c amount) words.old }
{
    exports::clock_calls::clock_advance_microseconds(words, amount)
}

#[unsafe(no_mangle)]
pub extern "C" fn clock_advance_100ns(words: &mut [u64], ticks: u64) -> u64
    ensures { returned result words.new ≡ changed (λ (c : GuestClock). advance100ns c ticks) words.old }
{
    exports::clock_calls::clock_advance_100ns(words, ticks)
}

#[unsafe(no_mangle)]
pub extern "C" fn clock_advance_milliseconds(words: &mut [u64], amount: u32) -> u64
    ensures { returned result words.new ≡ changed (λ (c : GuestClock). advance_milliseconds c amount) words.old }
{
    exports::clock_calls::clock_advance_milliseconds(words, amount)
}

#[unsafe(no_mangle)]
pub extern "C" fn clock_qpc(words: &[u64], out: &mut [u64]) -> u64
    ensures { returned result out.new ≡ read_into qpc words.now out.old }
{
    exports::clock_calls::clock_qpc(words, out)
}

#[unsafe(no_mangle)]
pub extern "C" fn clock_tick64(words: &[u64], out: &mut [u64]) -> u64
    ensures { returned result out.new ≡ read_into tick64 words.now out.old }
{
    exports::clock_calls::clock_tick64(words, out)
}

#[unsafe(no_mangle)]
pub extern "C" fn clock_tsc(words: &[u64], out: &mut [u64]) -> u64
    ensures { returned result out.new ≡ read_into tsc words.now out.old }
{
    exports::clock_calls::clock_tsc(words, out)
}
