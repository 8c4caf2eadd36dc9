// The steps of a sample, run on seven words through the clock's calls.
use super::decimal;
use exports::clock_calls;

#[derive(Clone, Copy)]
pub struct Tally {
    pub steps: u64,
    pub differences: u64,
}

// A line: op, four arguments, the answer's number and value, and the seven words after the step.
const FIELDS: usize = 14;

const NUMBER: usize = 5;

const VALUE: usize = 6;

const AFTER: usize = 7;

const WORDS: usize = 7;

// Past the byte between two numbers.
fn past(text: &[u8], at: usize) -> usize {
    if at < text.len() { at + 1 } else { at }
}

fn read_step(text: &[u8], from: usize, step: &mut [u64]) -> usize {
    let mut at = from;
    for word in step {
        let found = decimal::scan(text, at);
        *word = found.value;
        at = past(text, found.next);
    }
    at
}

fn minutes(word: u64) -> i32 {
    i32::try_from(word).map_or(i32::MAX, |offset| offset - 840)
}

fn low(word: u64) -> u32 {
    (word & 0xffff_ffff) as u32
}

// A clock made in six words.
fn new_short(a: u64, b: u64, step: &[u64]) -> u64 {
    let mut clock = [0u64; 6];
    clock_calls::clock_new(
        &mut clock,
        a,
        b,
        minutes(words::get(step, 3)),
        low(words::get(step, 4)),
    )
}

fn call(clock: &mut [u64], out: &mut [u64], step: &[u64]) -> u64 {
    let op = words::get(step, 0);
    let a = words::get(step, 1);
    let b = words::get(step, 2);
    match op {
        0 => clock_calls::clock_new(
            clock,
            a,
            b,
            minutes(words::get(step, 3)),
            low(words::get(step, 4)),
        ),
        1 => clock_calls::clock_instruction(clock),
        2 => clock_calls::clock_flush_cycles(clock),
        3 => clock_calls::clock_observe(clock),
        4 => clock_calls::clock_advance_microseconds(clock, a),
        5 => clock_calls::clock_advance_100ns(clock, a),
        6 => clock_calls::clock_advance_milliseconds(clock, low(a)),
        7 => clock_calls::clock_qpc(clock, out),
        8 => clock_calls::clock_tick64(clock, out),
        9 => clock_calls::clock_tsc(clock, out),
        10 => {
            words::put(clock, a as usize, b);
            0
        }
        11 => new_short(a, b, step),
        // No sample has this number.
        _ => 28,
    }
}

fn same(clock: &[u64], out: &[u64], number: u64, step: &[u64]) -> bool {
    number == words::get(step, NUMBER)
        && words::get(out, 0) == words::get(step, VALUE)
        && (0..WORDS).all(|i| words::get(clock, i) == words::get(step, AFTER + i))
}

fn run(clock: &mut [u64], out: &mut [u64], step: &[u64]) -> bool {
    words::put(out, 0, 0);
    let number = call(clock, out, step);
    same(clock, out, number, step)
}

pub fn all(text: &[u8]) -> Tally {
    let mut clock_words = [0u64; WORDS];
    let clock: &mut [u64] = &mut clock_words;
    let mut out_words = [0u64; 1];
    let out: &mut [u64] = &mut out_words;
    let mut step_words = [0u64; FIELDS];
    let step: &mut [u64] = &mut step_words;
    let mut tally = Tally {
        steps: 0,
        differences: 0,
    };
    let mut at = 0;
    // A step takes as many bytes as its numbers have.
    while at < text.len() {
        let next = read_step(text, at, step);
        // Never so: a step takes a byte or more. The test shows that the loop ends.
        if next <= at {
            return tally;
        }
        if !run(clock, out, step) {
            tally.differences = tally.differences.wrapping_add(1);
        }
        tally.steps = tally.steps.wrapping_add(1);
        at = next;
    }
    tally
}
