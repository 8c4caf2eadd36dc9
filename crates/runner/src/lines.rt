// A line of a script: read, performed and answered.
ghost use Rattle.std.specs.Prelude.{◌≡◌, ◌≤◌, length};
ghost use Rattle.runner.specs.Line.{answered_as, answered};

use super::session;

// The place behind the answer's line, and the bench after it.
#[derive(Clone, Copy)]
pub struct Answered {
    pub end: usize,
    pub session: session::Session,
}

// A line, which comes without its newline, to the line of its answer, at place `at` of `text`.
pub fn answer_line(
    w: &mut [u64],
    waiting: &mut [u64],
    list: &mut [u64],
    line: &[u8],
    text: &mut [u8],
    at: usize,
    number: u64,
    s: session::Session,
) -> Answered
    requires { at ≤ length text.old }
    ensures text_after { answered_as result w.new waiting.new list.new text.new ≡ answered w.old waiting.old list.old line.now text.old at number s }
    ensures end_in_bounds { result.end ≤ length text.new }
{
    let c = script::read_line(line, list);
    let step = session::perform(w, waiting, list, s, c);
    let answer = step.answer;
    let next = step.session;
    let end = script_print::write_answer(text, at, number, answer, waiting);
    Answered { end, session: next }
}
