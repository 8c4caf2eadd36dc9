// A line of a script read as a command.
#![tactic(auto)]

ghost use Rattle.std.specs.Prelude.{◌≡◌, ◌≤◌, length};
ghost use Rattle.script_lex.specs.Left.{left};
ghost use Rattle.script.specs.Wait.{taken};
ghost use Rattle.script.specs.Line.{text_length, text_line, read_line};

use script_lex::command::Command;
use script_lex::lex::Words;

mod scheduler_lines;
mod wait;

// How many bytes of a line are read: all but a carriage return at the end.
pub fn text_length(line: &[u8]) -> usize
    ensures value { result ≡ text_length line.now }
    ensures upper_bound { result ≤ length line.now }
{
    let n = line.len();
    if n == 0 {
        return 0;
    }
    if line[n - 1] == b'\r' {
        return n - 1;
    }
    n
}

#[tactic(auto, unfolding(crate::specs::Line::text_line))]
fn read_text(words: Words, list: &mut [u64]) -> Option<Command>
    ensures { taken result list.new ≡ text_line (left words.entry) list.old }
{
    if words.is(b"wait") {
        return wait::read_wait(words.rest(), list);
    }
    scheduler_lines::read_short(words)
}

// The command of a line, which comes without its newline. The kinds and keys of a wait go into the list, as far as they are read;
// 2,048 numbers always suffice. A list that is too short makes the line unread. The rest of the list stays.
#[tactic(auto, unfolding(crate::specs::Line::read_line))]
pub fn read_line(line: &[u8], list: &mut [u64]) -> Option<Command>
    ensures { taken result list.new ≡ read_line line.now list.old }
{
    if 4096 < line.len() {
        return None;
    }
    let n = text_length(line);
    read_text(Words::of(&line[..n]), list)
}
