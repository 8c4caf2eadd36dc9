// Bytes to lines, and a line to the call that it names.
ghost use Rattle.std.specs.Prelude.{◌≤◌, length};

use replay_calls::named;
use replay_state::{reads, show};
use script_lex::lex::Words;
use std::io;

// How many bytes of the present line have come, its number, how often its call is made, and how many mutexes are read.
#[derive(Clone, Copy)]
pub struct Place {
    pub used: usize,
    pub number: u64,
    pub times: u64,
    pub keys: usize,
}

pub fn start() -> Place {
    Place {
        used: 0,
        number: 1,
        times: 1,
        keys: 0,
    }
}

// The most numbers that a line has: a wait's four, and a list longer than any that is taken.
const NUMBERS: usize = 160;

// The numbers behind a line's name, and how many they are. A word that is no number counts as 0.
fn numbers_of(line: &[u8], numbers: &mut [u64]) -> usize
    ensures { result ≤ length numbers.new }
{
    let mut rest = Words::of(line).rest();
    // By place, not by word: the place is also the count that is told.
    for i in 0..numbers.len() {
        if rest.is_end() {
            return i;
        }
        numbers[i] = rest.number(u64::MAX).unwrap_or(0);
        rest = rest.rest();
    }
    numbers.len()
}

// The keys of a new list's mutexes; of what was shown before nothing stays.
fn keep_keys(numbers: &[u64], kept: &mut [u64]) {
    kept.fill(0);
    // By place: what the numbers do not have is 0, and two lists have the place.
    for i in 0..show::KEYS {
        words::put_in(kept, show::KEYS_AT, i, words::get(numbers, i));
    }
}

// The call of a line, as often as it is to be made, and its answer written: what the last one answers.
fn perform(
    rt: &impl Print,
    w: &mut [u64],
    line: &[u8],
    numbers: &[u64],
    p: Place,
) -> io::Result<()> {
    let mut waiting = [0u64; 256];
    let mut bytes = [0u8; 64];
    let mut out = [0u64; 24];
    for _ in 0..p.times {
        out = [0u64; 24];
        let number = named::call(w, &mut waiting, &mut bytes, &mut out, line, numbers);
        show::refuse(&mut out, number);
    }
    rt.print(p.number)?;
    rt.write_all(b" ")?;
    show::answer(rt, &out)?;
    show::beside(rt, &out, line, &waiting, &bytes)?;
    show::end_line(rt)
}

// The place behind a line.
fn next(p: Place, times: u64, keys: usize) -> Place {
    Place {
        used: 0,
        number: p.number.wrapping_add(1),
        times,
        keys,
    }
}

fn finish(
    rt: &impl Print,
    w: &mut [u64],
    kept: &mut [u64],
    line: &[u8],
    p: Place,
) -> io::Result<Place> {
    let mut numbers = [0u64; NUMBERS];
    let count = numbers_of(line, &mut numbers);
    let numbers = &numbers[..count];
    let name = Words::of(line);
    if name.is(b"times") {
        return Ok(next(p, words::get(numbers, 0), p.keys));
    }
    if name.is(b"keys") {
        keep_keys(numbers, kept);
        return Ok(next(p, 1, count.min(show::KEYS)));
    }
    perform(rt, w, line, numbers, p)?;
    reads::state(rt, w, p.keys, kept)?;
    Ok(next(p, 1, p.keys))
}

fn byte(
    rt: &impl Print,
    w: &mut [u64],
    kept: &mut [u64],
    line: &mut [u8],
    b: u8,
    p: Place,
) -> io::Result<Place> {
    let n = p.used;
    if b == b'\n' {
        if line.len() < n {
            return Ok(p);
        }
        return finish(rt, w, kept, &line[..n], p);
    }
    if n < line.len() {
        line[n] = b;
        return Ok(Place { used: n + 1, ..p });
    }
    Ok(p)
}

pub fn take(
    rt: &impl Print,
    w: &mut [u64],
    kept: &mut [u64],
    line: &mut [u8],
    chunk: &[u8],
    p: Place,
) -> io::Result<Place> {
    let mut at = p;
    for b in chunk {
        at = byte(rt, w, kept, line, *b, at)?;
    }
    Ok(at)
}
