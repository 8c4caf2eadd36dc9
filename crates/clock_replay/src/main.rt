// Replays a stored sample of clock calls, and counts the steps at which an answer, a value or a word differs from the sample's.
// `harness/README.md` says what the numbers of a line mean.
#![tactic(auto)]

mod decimal;
mod replay;

use std::io;
use std::io::{Input, Read};

// The most bytes of a sample that are read.
const SAMPLE: u64 = 65536;

fn main(rt: HostRuntime) -> io::Result<()> {
    let mut text = Vec::new(rt.alloc());
    rt.reader().take(SAMPLE).read_to_end(&mut text)?;
    let tally = replay::all(text.as_slice());
    println!(rt; "{} steps, {} differences", tally.steps, tally.differences)
}
