// Replays stored lists of calls through the exported functions. After each call its answer is written, and below it what the reads now answer otherwise than before.
// `harness/README.md` says what the lines mean.
#![tactic(auto)]

mod lines;

use std::io;
use std::io::{Input, Read};

// The loop counts its turns, up to a number that no run uses up.
fn main(rt: HostRuntime) -> io::Result<()> {
    let mut input = rt.reader();
    let mut w = [0u64; 303360];
    let mut kept = [0u64; 20184];
    let mut line = [0u8; 4096];
    let mut at = lines::start();
    for _ in 0..u64::MAX {
        let mut chunk = [0u8; 4096];
        let n = input.read(&mut chunk)?;
        if n == 0 {
            break;
        }
        at = lines::take(&rt, &mut w, &mut kept, &mut line, &chunk[..n], at)?;
    }
    Ok(())
}
