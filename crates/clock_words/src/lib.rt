// The guest clock in seven lent words: UTC, uptime, ticks, offset + 840, MHz, pending cycles, countdown.
//
// Words past the seventh are never touched. A word out of its field's range, or missing, makes the clock one out of form.
#![tactic(auto)]

ghost use Rattle.std.specs.Prelude.{◌≡◌};
ghost use Rattle.clock.specs.declared.Outcome.{Outcome};
ghost use Rattle.clock.specs.Numbers.{refusal_number};
ghost use Rattle.clock_words.specs.ClockWords.{offset_at, offset_word, clock_at, put_clock, returned, ended, answered};

use clock::{ClockError, GuestClock, Outcome, by_value};

pub mod operations;

fn offset_at(word: u64) -> i32
    ensures { result ≡ offset_at word }
{
    if word <= 1680 {
        (word as i32) - 840
    } else {
        841
    }
}

fn offset_word(c: GuestClock) -> u64
    ensures { result ≡ offset_word c.utc_offset_minutes }
{
    let minutes = c.utc_offset_minutes;
    if !by_value::offset_in_range(minutes) {
        return 0;
    }
    (minutes + 840) as u64
}

fn load(w: &[u64]) -> GuestClock
    ensures { result ≡ clock_at w.now }
{
    let utc_filetime = words::get(w, 0);
    let uptime_ms = words::get(w, 1);
    let submillisecond_100ns = u32::try_from(words::get(w, 2)).unwrap_or(10_000);
    let utc_offset_minutes = offset_at(words::get(w, 3));
    let base_mhz = u32::try_from(words::get(w, 4)).unwrap_or(0);
    let pending_cycles = words::get(w, 5);
    let until_flush = u16::try_from(words::get(w, 6)).unwrap_or(0);
    GuestClock {
        utc_filetime,
        uptime_ms,
        submillisecond_100ns,
        utc_offset_minutes,
        base_mhz,
        pending_cycles,
        until_flush,
    }
}

// A line a word: the seven fields have four types, and a loop would need an array of their words first.
fn store(w: &mut [u64], c: GuestClock)
    ensures { w.new ≡ put_clock w.old c }
{
    let ticks = c.submillisecond_100ns as u64;
    let offset = offset_word(c);
    let mhz = c.base_mhz as u64;
    let countdown = c.until_flush as u64;
    words::put(w, 0, c.utc_filetime);
    words::put(w, 1, c.uptime_ms);
    words::put(w, 2, ticks);
    words::put(w, 3, offset);
    words::put(w, 4, mhz);
    words::put(w, 5, c.pending_cycles);
    words::put(w, 6, countdown);
}

// 0 or the number, as C takes it; so do `end`, `change`, `answer` and the calls answer.
fn refusal_number(answer: Result<(), ClockError>) -> u64
    ensures { result ≡ refusal_number answer }
{
    match answer {
        Ok(()) => 0,
        Err(why) => u64::from(why),
    }
}

// A clock that was out of form is not put back: its words may hold what no clock does.
#[tactic(auto, unfolding(crate::specs::ClockWords::ended))]
fn end(w: &mut [u64], after: Outcome) -> u64
    ensures { returned result w.new ≡ ended w.old after }
{
    if after.answer != Err(ClockError::OutOfForm) {
        store(w, after.clock);
    }
    refusal_number(after.answer)
}

// A call that may change the clock, on its words.
fn change<F: FnOnce(GuestClock) -> Outcome>(w: &mut [u64], call: F) -> u64
    requires { F.pre call (clock_at w.old) }
    ensures { (after : Outcome) × F.post call (clock_at w.old) after × (returned result w.new ≡ ended w.old after) }
{
    let after = call(load(w));
    end(w, after)
}

fn answer(out: &mut [u64], reading: Result<u64, ClockError>) -> u64
    ensures { returned result out.new ≡ answered out.old reading }
{
    if out.is_empty() {
        return u64::from(ClockError::OutOfForm);
    }
    match reading {
        Ok(value) => {
            words::put(out, 0, value);
            0
        }
        Err(why) => u64::from(why),
    }
}
