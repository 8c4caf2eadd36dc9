// The bytes of a script: cut into lines at each newline, and each line answered. The answers of one part of a script are gathered in a text.
#![tactic(auto)]

ghost use Rattle.std.specs.Prelude.{◌≡◌, ◌≤◌, length};
ghost use Rattle.script_bytes.specs.Bytes.{Lent, Within, begun, machine, finished, byte_taken, part_taken, ended, most_part};

use runner::{lines, session};

// How many bytes of the present line have come, its number, the bench, and how many bytes of answers stand in the text.
// What is lent stays a parameter of each function: a struct of `&mut`s keeps no ghost field, so each method would have to promise five loans
// and their lengths besides.
#[derive(Clone, Copy)]
pub struct Place {
    pub used: usize,
    pub number: u64,
    pub session: session::Session,
    pub written: usize,
}

pub fn start() -> Place
    ensures { result ≡ begun }
{
    Place {
        used: 0,
        number: 1,
        session: session::start(),
        written: 0,
    }
}

// The line that has come, answered. Of a line too long more than 4,096 bytes stand in `line`: it cannot be read.
fn finish(
    w: &mut [u64],
    waiting: &mut [u64],
    list: &mut [u64],
    line: &[u8],
    text: &mut [u8],
    p: Place,
) -> Place
    requires { Within p line.now text.old }
    ensures text_after { machine result w.new waiting.new list.new line.now text.new ≡ finished (machine p w.old waiting.old list.old line.now text.old) }
    ensures within { Within result line.now text.new }
{
    let s = p.session;
    let a = lines::answer_line(
        w,
        waiting,
        list,
        &line[..p.used],
        text,
        p.written,
        p.number,
        s,
    );
    Place {
        used: 0,
        number: std::num::wrapping_add_u64(p.number, 1),
        session: a.session,
        written: a.end,
    }
}

// One byte more: a newline ends the line, and of a line too long no more is kept.
pub fn byte(
    w: &mut [u64],
    waiting: &mut [u64],
    list: &mut [u64],
    line: &mut [u8],
    text: &mut [u8],
    b: u8,
    p: Place,
) -> Place
    requires { Within p line.old text.old }
    ensures text_after { machine result w.new waiting.new list.new line.new text.new ≡ byte_taken (machine p w.old waiting.old list.old line.old text.old) b }
    ensures within { Within result line.new text.new }
{
    if b == b'\n' {
        return finish(w, waiting, list, line, text, p);
    }
    let n = p.used;
    if n < line.len() {
        line[n] = b;
        return Place { used: n + 1, ..p };
    }
    p
}

// Answers stand at the start of the text again.
pub fn from_start(p: Place) -> Place
    ensures { result ≡ record { used = p.used; number = p.number; session = p.session; written = 0 } }
{
    Place { written: 0, ..p }
}

// A part of a script: the answers of the lines that end in it stand in the text.
pub fn take(
    w: &mut [u64],
    waiting: &mut [u64],
    list: &mut [u64],
    line: &mut [u8],
    text: &mut [u8],
    part: &[u8],
    p: Place,
) -> Place
    requires lent { Lent w.old waiting.old list.old line.old text.old }
    requires part_len_bound { length part.now ≤ most_part }
    requires within { Within p line.old text.old }
    ensures text_after { machine result w.new waiting.new list.new line.new text.new ≡ part_taken (machine p w.old waiting.old list.old line.old text.old) part.now }
    ensures within_2 { Within result line.new text.new }
{
    let mut at = from_start(p);
    for b in part {
        at = byte(w, waiting, list, line, text, *b, at);
    }
    at
}

// The end of a script: a last line without a newline counts, and its answer stands in the text.
pub fn end(
    w: &mut [u64],
    waiting: &mut [u64],
    list: &mut [u64],
    line: &[u8],
    text: &mut [u8],
    p: Place,
) -> Place
    requires lent { Lent w.old waiting.old list.old line.now text.old }
    requires within { Within p line.now text.old }
    ensures text_after { machine result w.new waiting.new list.new line.now text.new ≡ ended (machine p w.old waiting.old list.old line.now text.old) }
    ensures within_2 { Within result line.now text.new }
{
    if p.used == 0 {
        return from_start(p);
    }
    finish(w, waiting, list, line, text, from_start(p))
}
