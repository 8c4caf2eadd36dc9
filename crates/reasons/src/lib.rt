// Why a line of a script cannot be read.
#![tactic(auto)]

ghost use Rattle.std.specs.Prelude.{◌≡◌, ◌≤◌, length};
ghost use Rattle.script_lex.specs.Words.{words_at};
ghost use Rattle.script_lex.specs.Left.{left};
ghost use Rattle.reasons.specs.Reasons.{continued, named_reason, clock_reason, words_reason, reason_of};

use script_lex::lex::Words;

mod arguments;
mod table;

// Where a reason has a place, the word of that number is meant, the first has 0; where it has a kind, that is the letter of what is wanted there.
#[derive(Clone, Copy)]
pub enum Reason {
    // The line has more than 4,096 bytes.
    TooLong,
    NoWord,
    UnknownWord(usize),
    Missing(usize, u8),
    NotNumber(usize, u8),
    OutOfRange(usize, u8),
    NotListed(usize, u8),
    Extra(usize),
    // A session's reasons, for a line that is read.
    BeforeOpen,
    SecondOpen,
    BeforeClock,
}

// The words, the first of which names its form in the table. Each clause here says that the line has at most 4,096 bytes: a `Words` may have
// more, and a type for this would be a second one.
fn named_reason(words: Words, place: usize, table: &[u8]) -> Option<Reason>
    requires { (length words.line.now ≤ 4096) × (place ≤ 1) }
    ensures { result ≡ named_reason (words_at table.now 0) place (left words.entry) }
{
    let form = table::form_of(words, table);
    if form.is_empty() {
        return Some(Reason::UnknownWord(place));
    }
    arguments::reason_from(words.rest(), place + 1, form)
}

// The words behind `clock`.
fn clock_reason(words: Words) -> Option<Reason>
    requires { length words.line.now ≤ 4096 }
    ensures { result ≡ clock_reason (left words.entry) }
{
    if words.is_end() {
        return Some(Reason::Missing(1, b'c'));
    }
    named_reason(
        words,
        1,
        b"new nniw instruction . flush_cycles . observe . qpc . tick64 . tsc . advance_microseconds n advance_100ns n advance_milliseconds w",
    )
}

fn words_reason(words: Words) -> Option<Reason>
    requires { length words.line.now ≤ 4096 }
    ensures { result ≡ words_reason (left words.entry) }
{
    if words.is_end() {
        return Some(Reason::NoWord);
    }
    if words.is(b"clock") {
        return clock_reason(words.rest());
    }
    named_reason(
        words,
        0,
        b"wait stbkv open b event nff create b dispatch . set n yield . initialize_mutex n adopt_mutex no mutex_owner n mutex_waiters n release_mutex n reset_event n require_event_release nnn retire_event_backing nnn current . priority nb terminate w delay_until nb advance_to n initialize_timer namnnnf set_timer nnfin cancel_timer n timer_initializations . timer_read_overlap nn timer_metadata_overlap nn require_timer_release nn retire_timer_backing nn initialize_dpc namnnnnn dpc_initializations . configure_dpc_dispatch nn queued_dpcs n insert_queue_dpc nnn remove_queue_dpc n start_dpc n returned_dpc nn restored_dpc nn",
    )
}

// Why a line, which comes without its newline, cannot be read.
pub fn reason_of(line: &[u8]) -> Option<Reason>
    ensures { result ≡ reason_of line.now }
{
    if 4096 < line.len() {
        return Some(Reason::TooLong);
    }
    let n = script::text_length(line);
    words_reason(Words::of(&line[..n]))
}

// The reason of a line to which its session has one too, which shows where the line itself is fine.
#[tactic(auto, unfolding(crate::specs::Reasons::continued, crate::specs::Reasons::is_fine))]
pub fn reason_in(line: &[u8], session: Option<Reason>) -> Option<Reason>
    ensures { result ≡ continued (reason_of line.now) session }
{
    reason_of(line).or(session)
}
