// Every call on a clock, by value: the clock goes in, and comes back beside the answer. A clock out of form is refused.
ghost use Rattle.std.specs.Prelude.{◌≡◌, ◌*◌, ◌<◌, ◌&&◌, Option, true, false, SomeIff};
ghost use Rattle.clock.specs.Clock as spec;
ghost use Rattle.clock.specs.declared.GuestClock.{GuestClock};
ghost use Rattle.clock.specs.declared.ClockError.TheVariants.{OutOfForm};

use super::{ClockError, GuestClock, Outcome};

// The longest uptime whose ticks fit 64 bits, in ms.
pub const MOST_UPTIME_MS: u64 = 1_844_674_407_370_955;
// How many instructions pass between two flushes, and how many cycles each is modeled to take.
pub const FLUSH_EVERY: u16 = 1000;

pub const CYCLES: u64 = 100;

// Two comparisons, as in the ranges below: the proof of a range's `contains` is longer.
pub fn offset_in_range(minutes: i32) -> bool
    ensures { result ≡ spec.offset_in_range minutes }
{
    -840 <= minutes && minutes <= 840
}

pub fn in_range(uptime_ms: u64, utc_offset_minutes: i32, base_mhz: u32) -> bool
    ensures { result ≡ spec.in_range uptime_ms utc_offset_minutes base_mhz }
{
    1 <= base_mhz
        && base_mhz <= 100_000
        && uptime_ms <= MOST_UPTIME_MS
        && offset_in_range(utc_offset_minutes)
}

pub fn in_form(c: GuestClock) -> bool
    ensures { result ≡ spec.in_form c }
{
    c.submillisecond_100ns < 10_000
        && 1 <= c.until_flush
        && c.until_flush <= FLUSH_EVERY
        && in_range(c.uptime_ms, c.utc_offset_minutes, c.base_mhz)
}

pub fn new(
    utc_filetime: u64,
    uptime_ms: u64,
    utc_offset_minutes: i32,
    base_mhz: u32,
) -> Result<GuestClock, ClockError>
    ensures { result ≡ spec.created utc_filetime uptime_ms utc_offset_minutes base_mhz }
{
    if !in_range(uptime_ms, utc_offset_minutes, base_mhz) {
        return Err(ClockError::InvalidConfiguration);
    }
    Ok(GuestClock {
        utc_filetime,
        uptime_ms,
        submillisecond_100ns: 0,
        utc_offset_minutes,
        base_mhz,
        pending_cycles: 0,
        until_flush: FLUSH_EVERY,
    })
}

fn refused(c: GuestClock, why: ClockError) -> Outcome
    ensures { result ≡ spec.refused c why }
{
    Outcome {
        answer: Err(why),
        clock: c,
    }
}

fn done(c: GuestClock) -> Outcome
    ensures { result ≡ spec.done c }
{
    Outcome {
        answer: Ok(()),
        clock: c,
    }
}

// The clock after, or a refusal where there is none.
fn fitting(c: GuestClock, after: Option<GuestClock>) -> Outcome
    ensures { result ≡ spec.fitted after c }
{
    match after {
        Some(after) => done(after),
        None => refused(c, ClockError::Overflow),
    }
}

// A call that is done whole or not at all.
fn whole<F: FnOnce(GuestClock) -> Option<GuestClock>>(c: GuestClock, call: F) -> Outcome
    requires { spec.in_form c ≡ true → F.pre call c }
    ensures out { spec.in_form c ≡ false → result ≡ spec.refused c OutOfForm }
    ensures ended { spec.in_form c ≡ true → (after : Option GuestClock) × F.post call c after × (result ≡ spec.fitted after c) }
{
    if !in_form(c) {
        return refused(c, ClockError::OutOfForm);
    }
    fitting(c, call(c))
}

// The clock `ticks` of 100 ns later.
fn moved(c: GuestClock, ticks: u64) -> Option<GuestClock>
    ensures { SomeIff result (spec.advances c ticks ≡ true) (spec.moved c ticks) }
{
    let utc_filetime = c.utc_filetime.checked_add(ticks)?;
    let fraction = (c.submillisecond_100ns as u64).checked_add(ticks)?;
    let uptime_ms = c.uptime_ms.checked_add(fraction / 10_000)?;
    if MOST_UPTIME_MS < uptime_ms {
        return None;
    }
    Some(GuestClock {
        utc_filetime,
        uptime_ms,
        submillisecond_100ns: (fraction % 10_000) as u32,
        ..c
    })
}

fn moved_microseconds(c: GuestClock, amount: u64) -> Option<GuestClock>
    ensures { SomeIff result (spec.advances c (amount * 10) ≡ true) (spec.moved c (amount * 10)) }
{
    moved(c, amount.checked_mul(10)?)
}

fn with_cycles(c: GuestClock, pending_cycles: u64, until_flush: u16) -> GuestClock
    ensures { result ≡ spec.with_cycles c pending_cycles until_flush }
{
    GuestClock {
        pending_cycles,
        until_flush,
        ..c
    }
}

// The whole microseconds of pending cycles become time, and the remainder stays pending.
fn flushed(c: GuestClock) -> Option<GuestClock>
    requires { 0 < c.base_mhz }
    ensures { SomeIff result (spec.flushes c ≡ true) (spec.flushed c) }
{
    let mhz = c.base_mhz as u64;
    let ticks = (c.pending_cycles / mhz).checked_mul(10)?;
    let after = moved(c, ticks)?;
    Some(with_cycles(after, c.pending_cycles % mhz, c.until_flush))
}

fn observed(c: GuestClock) -> Option<GuestClock>
    requires { 0 < c.base_mhz }
    ensures { SomeIff result ((spec.flushes c && spec.advances (spec.flushed c) 10) ≡ true) (spec.moved (spec.flushed c) 10) }
{
    moved(flushed(c)?, 10)
}

// 100 modeled cycles an instruction. Where the flush overflows they stay counted, and the countdown starts anew.
pub fn instruction(c: GuestClock) -> Outcome
    ensures { result ≡ spec.instruction c }
{
    if !in_form(c) {
        return refused(c, ClockError::OutOfForm);
    }
    let Some(pending) = c.pending_cycles.checked_add(CYCLES) else {
        return refused(c, ClockError::Overflow);
    };
    if c.until_flush == 1 {
        let counted = with_cycles(c, pending, FLUSH_EVERY);
        return fitting(counted, flushed(counted));
    }
    done(with_cycles(c, pending, c.until_flush - 1))
}

pub fn advance_100ns(c: GuestClock, ticks: u64) -> Outcome
    ensures { result ≡ spec.advance100ns c ticks }
{
    whole(c, |c| moved(c, ticks))
}

pub fn advance_microseconds(c: GuestClock, amount: u64) -> Outcome
    ensures { result ≡ spec.advance_microseconds c amount }
{
    whole(c, |c| moved_microseconds(c, amount))
}

pub fn advance_milliseconds(c: GuestClock, amount: u32) -> Outcome
    ensures { result ≡ spec.advance_milliseconds c amount }
{
    whole(c, |c| moved(c, (amount as u64) * 10_000))
}

pub fn flush_cycles(c: GuestClock) -> Outcome
    ensures { result ≡ spec.flush_cycles c }
{
    whole(c, flushed)
}

// A flush, and a microsecond more; both or neither.
pub fn observe(c: GuestClock) -> Outcome
    ensures { result ≡ spec.observe c }
{
    whole(c, observed)
}

pub fn qpc(c: GuestClock) -> Result<u64, ClockError>
    ensures { result ≡ spec.qpc c }
{
    if !in_form(c) {
        return Err(ClockError::OutOfForm);
    }
    (c.uptime_ms * 10_000)
        .checked_add(c.submillisecond_100ns as u64)
        .ok_or(ClockError::Overflow)
}

pub fn tick64(c: GuestClock) -> Result<u64, ClockError>
    ensures { result ≡ spec.tick64 c }
{
    if !in_form(c) {
        return Err(ClockError::OutOfForm);
    }
    Ok(c.uptime_ms / 16 * 16)
}

fn cycles_at(c: GuestClock, ticks: u64) -> u64
    ensures { result ≡ spec.cycles_at c ticks }
{
    wide::wrapping_mul_tenth(ticks, c.base_mhz as u64).wrapping_add(c.pending_cycles)
}

pub fn tsc(c: GuestClock) -> Result<u64, ClockError>
    ensures { result ≡ spec.tsc c }
{
    Ok(cycles_at(c, qpc(c)?))
}
