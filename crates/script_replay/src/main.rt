// Replays stored scripts from standard input: each is run on a bench of its own, and a line `#` ends it and is written as it is.
#![tactic(auto)]

ghost use Rattle.script_bytes.specs.Bytes.{Within};

use script_bytes::Place;
use std::io::{Input, Read};

// Answers that cannot be written are lost.
fn write(rt: &impl Print, answers: &[u8]) {
    let _ = rt.write_all(answers);
}

// Whether the line that has come is `#`.
fn is_mark(line: &[u8], p: Place) -> bool {
    p.used == 1 && matches!(line.first(), Some(b'#'))
}

fn step(
    rt: &impl Print,
    w: &mut [u64],
    waiting: &mut [u64],
    list: &mut [u64],
    line: &mut [u8],
    text: &mut [u8],
    b: u8,
    p: Place,
) -> Place
    requires { Within p line.old text.old }
    ensures { Within result line.new text.new }
{
    if b == b'\n' {
        if is_mark(line, p) {
            let n = p.written;
            write(rt, &text[..n]);
            write(rt, b"#\n");
            return script_bytes::start();
        }
    }
    script_bytes::byte(w, waiting, list, line, text, b, p)
}

fn take(
    rt: &impl Print,
    w: &mut [u64],
    waiting: &mut [u64],
    list: &mut [u64],
    line: &mut [u8],
    text: &mut [u8],
    part: &[u8],
    p: Place,
) -> Place
    requires { Within p line.old text.old }
    ensures { Within result line.new text.new }
{
    let mut at = script_bytes::from_start(p);
    for b in part {
        at = step(rt, w, waiting, list, line, text, *b, at);
    }
    at
}

// The loop counts its turns, up to a number that no run uses up. A read that fails ends the input.
fn main(rt: HostRuntime) {
    let mut input = rt.reader();
    let mut w = [0u64; 6912];
    let mut waiting = [0u64; 16];
    let mut list = [0u64; 2048];
    let mut line = [0u8; 4097];
    let mut text = [0u8; 409600];
    let mut at = script_bytes::start();
    for _ in 0..u64::MAX {
        let mut part = [0u8; 1024];
        let n = input.read(&mut part).unwrap_or(0);
        if n == 0 {
            break;
        }
        at = take(
            &rt,
            &mut w,
            &mut waiting,
            &mut list,
            &mut line,
            &mut text,
            &part[..n],
            at,
        );
        let written = at.written;
        write(&rt, &text[..written]);
    }
    let last = script_bytes::end(&mut w, &mut waiting, &mut list, &line, &mut text, at);
    let written = last.written;
    write(&rt, &text[..written]);
}
