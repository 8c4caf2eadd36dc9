// The words behind a line's name, held to their kinds: the words left, the number of the first of them, and the letter of its kind.
// The letter is no enum: it is the byte of the form's text, which the contract names.
ghost use Rattle.std.specs.Prelude.{◌≡◌, ◌+◌, ◌≤◌, length, get_or};
ghost use Rattle.script_lex.specs.Words.{words_at, first};
ghost use Rattle.script_lex.specs.Left.{left};
ghost use Rattle.reasons.specs.Reasons.{digits, is_numeral, unread_number, number_reason, signed_reason, or_number, list_reason, choice_reason, word_reason, next_of, end_reason, reason_from};

use super::{Reason, table};
use script_lex::lex::Words;

// Whether a word is digits, one or more.
fn are_digits(word: &[u8]) -> bool
    ensures { result ≡ digits word.now }
{
    !word.is_empty() && word.iter().all(|b| b.is_ascii_digit())
}

// Whether the first word is a number, however large, with a minus or without.
fn is_numeral(words: Words) -> bool
    ensures { result ≡ is_numeral (first (left words.entry)) }
{
    let word = words.first();
    if word.is_empty() {
        return false;
    }
    if word[0] == b'-' {
        return are_digits(&word[1..]);
    }
    are_digits(word)
}

// The first word should tell a number, and does not.
#[tactic(auto, unfolding(crate::specs::Reasons::unread_number))]
fn unread_number(words: Words, place: usize, kind: u8) -> Reason
    ensures { result ≡ unread_number place kind (first (left words.entry)) }
{
    if is_numeral(words) {
        return Reason::OutOfRange(place, kind);
    }
    Reason::NotNumber(place, kind)
}

#[tactic(auto, unfolding(crate::specs::Reasons::number_reason, crate::specs::Reasons::of_number))]
fn number_reason(words: Words, place: usize, kind: u8, limit: u64) -> Option<Reason>
    ensures { result ≡ number_reason limit place kind (first (left words.entry)) }
{
    match words.number(limit) {
        Some(_) => None,
        None => Some(unread_number(words, place, kind)),
    }
}

#[tactic(auto, unfolding(crate::specs::Reasons::signed_reason, crate::specs::Reasons::of_signed))]
fn signed_reason(words: Words, place: usize, kind: u8) -> Option<Reason>
    ensures { result ≡ signed_reason place kind (first (left words.entry)) }
{
    match words.signed() {
        Some(_) => None,
        None => Some(unread_number(words, place, kind)),
    }
}

// One word, or a number of 64 bits.
#[tactic(auto, unfolding(crate::specs::Reasons::or_number))]
fn or_number(words: Words, place: usize, kind: u8, name: &[u8]) -> Option<Reason>
    ensures { result ≡ or_number name.now place kind (first (left words.entry)) }
{
    if words.is(name) {
        return None;
    }
    number_reason(words, place, kind, u64::MAX)
}

// One of the words of a list.
#[tactic(auto, unfolding(crate::specs::Reasons::list_reason))]
fn list_reason(words: Words, place: usize, kind: u8, list: &[u8]) -> Option<Reason>
    ensures { result ≡ list_reason (words_at list.now 0) place kind (first (left words.entry)) }
{
    if table::is_listed(words, list) {
        return None;
    }
    Some(Reason::NotListed(place, kind))
}

// The first word, of a kind that has words of its own.
#[tactic(auto, unfolding(crate::specs::Reasons::choice_reason))]
fn choice_reason(words: Words, place: usize, kind: u8) -> Option<Reason>
    ensures { result ≡ choice_reason kind place (first (left words.entry)) }
{
    match kind {
        b't' => or_number(words, place, kind, b"never"),
        b'o' => or_number(words, place, kind, b"none"),
        b'f' => list_reason(words, place, kind, b"0 1"),
        b'a' => list_reason(words, place, kind, b"x64 x86"),
        b'm' => list_reason(words, place, kind, b"image pool"),
        b's' => list_reason(words, place, kind, b"any all"),
        b'k' => list_reason(words, place, kind, b"mutex event timer thread"),
        _ => Some(Reason::Extra(place)),
    }
}

// The first word, of any kind.
#[tactic(auto, unfolding(crate::specs::Reasons::word_reason))]
fn word_reason(words: Words, place: usize, kind: u8) -> Option<Reason>
    ensures { result ≡ word_reason kind place (first (left words.entry)) }
{
    match kind {
        b'n' | b'v' => number_reason(words, place, kind, u64::MAX),
        b'b' => number_reason(words, place, kind, 255),
        b'w' => number_reason(words, place, kind, 4_294_967_295),
        b'i' => signed_reason(words, place, kind),
        _ => choice_reason(words, place, kind),
    }
}

// The letter at a place of a form; behind them all, that of its end.
fn kind_at(form: &[u8], i: usize) -> u8
    ensures { result ≡ get_or form.now i 46 }
{
    if form.len() <= i {
        return b'.';
    }
    form[i]
}

// The place of the kind behind that of the first word.
#[tactic(auto, unfolding(crate::specs::Reasons::next_of))]
fn next(words: Words, kind: u8, i: usize) -> usize
    requires { i ≤ 65536 }
    ensures value { result ≡ next_of kind (first (left words.entry)) i }
    ensures upper_bound { result ≤ i + 2 }
{
    match kind {
        b'v' => i.saturating_sub(1),
        b'm' if words.is(b"image") => i + 2,
        _ => i + 1,
    }
}

// A line that ends where a word of this kind is wanted.
#[tactic(auto, unfolding(crate::specs::Reasons::end_reason))]
fn end_reason(place: usize, kind: u8) -> Option<Reason>
    ensures { result ≡ end_reason place kind }
{
    match kind {
        b'.' | b'k' | b'v' => None,
        _ => Some(Reason::Missing(place, kind)),
    }
}

// The words, the first of which has the number `number`. Not a `for` over them: its readers take a `Words`, whose first word is asked by
// `number`, `signed` and `is`, and a word alone has no such methods.
pub fn reason_from(words: Words, number: usize, form: &[u8]) -> Option<Reason>
    requires { (length words.line.now ≤ 4096) × (number ≤ 2) }
    ensures { result ≡ reason_from form.now 0 number (left words.entry) }
{
    let mut here = words;
    let mut place = number;
    let mut i: usize = 0;
    while !here.is_end() {
        let kind = kind_at(form, i);
        if let Some(reason) = word_reason(here, place, kind) {
            return Some(reason);
        }
        i = next(here, kind, i);
        here = here.rest();
        place += 1;
    }
    end_reason(place, kind_at(form, i))
}
