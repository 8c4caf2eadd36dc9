// The text of an answer, and what of it has been shown before.
use exports::tags;
use script_lex::lex::Words;
use std::io;

// The words of an answer: a tag, its values, and last the number of the refusal.
pub const ANSWER: usize = 24;

// What is kept between calls: the answers last shown, each at its place, and behind them the keys of the mutexes that are read.
pub const KEYS_AT: usize = 20160;

pub const KEYS: usize = 16;

const REFUSED: usize = 23;

pub fn refuse(out: &mut [u64], number: u64) {
    words::put(out, REFUSED, number);
}

fn tag(t: u64) -> &'static str {
    match t {
        tags::DONE => "done",
        tags::NONE => "none",
        tags::THREAD => "thread",
        tags::FLAG => "flag",
        tags::COUNT => "count",
        tags::SATISFIED => "satisfied",
        tags::TIMEOUT => "timeout",
        tags::BLOCKED => "blocked",
        tags::RUN => "run",
        tags::ADVANCE_TO => "advance",
        tags::DEADLOCKED => "deadlocked",
        tags::FINISHED => "finished",
        tags::EVENT => "event",
        tags::TIMER => "timer",
        tags::DPC => "dpc",
        tags::WORK => "work",
        tags::NO_POLICY => "no policy",
        tags::POLICY => "policy",
        tags::COUNTERS => "counters",
        tags::THREAD_RECORD => "thread record",
        tags::OBJECT => "object",
        _ => "?",
    }
}

// How many words there are up to the last that is not 0, but for the refusal.
fn used(out: &[u64]) -> usize {
    for i in (0..REFUSED).rev() {
        if words::get(out, i) != 0 {
            return i + 1;
        }
    }
    0
}

fn value(rt: &impl Print, n: u64) -> io::Result<()> {
    rt.write_all(b" ")?;
    rt.print(n)
}

// The tag by its name and the values, noughts at the end left out; or the refusal.
pub fn answer(rt: &impl Print, out: &[u64]) -> io::Result<()> {
    let number = words::get(out, REFUSED);
    if number != 0 {
        rt.write_all(b"refused ")?;
        return rt.print(number);
    }
    rt.write_all(tag(words::get(out, 0)).as_bytes())?;
    for i in 1..used(out) {
        value(rt, words::get(out, i))?;
    }
    Ok(())
}

fn image(rt: &impl Print, bytes: &[u8], size: u64) -> io::Result<()> {
    rt.write_all(b" ")?;
    for b in bytes.iter().take(size as usize) {
        print!(rt; "{b:02x}")?;
    }
    Ok(())
}

// What a call answers beside `out`: the numbers of a deadlock, or an image's bytes.
pub fn beside(
    rt: &impl Print,
    out: &[u64],
    line: &[u8],
    waiting: &[u64],
    bytes: &[u8],
) -> io::Result<()> {
    if words::get(out, REFUSED) != 0 {
        return Ok(());
    }
    let n = words::get(out, 1);
    if words::get(out, 0) == tags::DEADLOCKED {
        for thread in waiting.iter().take(n as usize) {
            value(rt, *thread)?;
        }
        return Ok(());
    }
    let name = Words::of(line);
    if name.is(b"timer_image") || name.is(b"dpc_image") {
        return image(rt, bytes, n);
    }
    Ok(())
}

// Where an answer's words are kept, by its place.
fn words_at(place: usize) -> usize {
    place.saturating_mul(ANSWER)
}

// Whether the answer is none, and so was the last one shown at this place, or none has been.
pub fn is_past(kept: &[u64], place: usize, out: &[u64]) -> bool {
    words::get(out, 0) == tags::NONE
        && matches!(words::get_in(kept, words_at(place), 0), 0 | tags::NONE)
}

// Whether the answer differs from the last one shown at this place; it is the last one now.
pub fn is_news(kept: &mut [u64], place: usize, out: &[u64]) -> bool {
    let at = words_at(place);
    let mut news = false;
    // By place: two lists are read, and one is written.
    for i in 0..ANSWER {
        let word = words::get(out, i);
        if words::get_in(kept, at, i) != word {
            words::put_in(kept, at, i, word);
            news = true;
        }
    }
    news
}

// The name of a read.
pub fn title(rt: &impl Print, name: &str) -> io::Result<()> {
    print!(rt; "  {name}: ")
}

// The name of a read and its argument.
pub fn title_of(rt: &impl Print, name: &str, argument: u64) -> io::Result<()> {
    print!(rt; "  {name} {argument}: ")
}

pub fn end_line(rt: &impl Print) -> io::Result<()> {
    rt.write_all(b"\n")
}
