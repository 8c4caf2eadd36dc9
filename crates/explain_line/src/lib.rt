// A line of a script to the line of its answer, and beside a refusal why. Each writer goes as far as the text has room.
#![tactic(auto)]

ghost use Rattle.std.specs.Prelude.{◌≡◌, ◌≤◌, length};
ghost use Rattle.script_print.specs.Print.{written, printed};
ghost use Rattle.script_print.specs.Texts.{Prints};
ghost use Rattle.runner.specs.Line.{answered_as};
ghost use Rattle.explain_line.specs.Explain.{session_reason, why, beside, explained_line, explained};

use answers::Answer;
use reasons::Reason;
use runner::lines::Answered;
use runner::session;
use script_lex::lex::Words;
use script_print::Text;

// Why the session refuses a line that can be read: with nothing open any but an `open`, then an `open`, and but for these a clock's line.
fn session_reason(line: &[u8], opened: bool) -> Reason
    ensures { result ≡ session_reason line.now opened }
{
    if !opened {
        return Reason::BeforeOpen;
    }
    let n = script::text_length(line);
    if Words::of(&line[..n]).is(b"open") {
        return Reason::SecondOpen;
    }
    Reason::BeforeClock
}

// Why a line is refused with a number: for 28 its reason, else the number's sentence.
fn put_why(text: &mut Text, line: &[u8], opened: bool, number: u64)
    ensures { Prints text.old text.new (why line.now opened number) }
{
    if number == 28 {
        let reason = reasons::reason_in(line, Some(session_reason(line, opened)));
        return reason_text::put_reason(text, line, reason);
    }
    refusal_text::put_sentence(text, number);
}

// What stands beside an answer: nothing, unless it is a refusal.
fn put_beside(text: &mut Text, line: &[u8], opened: bool, a: Answer)
    ensures { Prints text.old text.new (beside line.now opened a) }
{
    if let Answer::Refused(number) = a {
        text.push_bytes(b": ");
        put_why(text, line, opened, number);
    }
}

// The line of an answer, with the number of the line that it answers, at place `at` of `text`.
fn put_line(
    text: &mut [u8],
    at: usize,
    number: u64,
    a: Answer,
    numbers: &[u64],
    line: &[u8],
    opened: bool,
) -> usize
    requires { at ≤ length text.old }
    ensures result_after { written text.new result ≡ printed text.old at (explained_line number a numbers.now line.now opened) }
    ensures upper_bound { result ≤ length text.new }
{
    let mut told = Text { bytes: text, at };
    told.push_number(number);
    told.push_bytes(b" ");
    told.push_answer(a, numbers);
    put_beside(&mut told, line, opened, a);
    told.push_bytes(b"\n");
    told.at
}

// A line, which comes without its newline, read and performed, and its answer written with what stands beside it.
pub fn explain_line(
    w: &mut [u64],
    waiting: &mut [u64],
    list: &mut [u64],
    line: &[u8],
    text: &mut [u8],
    at: usize,
    number: u64,
    s: session::Session,
) -> Answered
    requires { at ≤ length text.old }
    ensures text_after { answered_as result w.new waiting.new list.new text.new ≡ explained w.old waiting.old list.old line.now text.old at number s }
    ensures end_in_bounds { result.end ≤ length text.new }
{
    let c = script::read_line(line, list);
    let step = session::perform(w, waiting, list, s, c);
    let answer = step.answer;
    let next = step.session;
    let end = put_line(text, at, number, answer, waiting, line, s.opened);
    Answered { end, session: next }
}
