// Reasons in English. Each writer goes as far as the text has room.
#![tactic(auto)]

ghost use Rattle.std.specs.Prelude.{◌≡◌, take};
ghost use Rattle.script_lex.specs.Words.{first};
ghost use Rattle.script_lex.specs.Left.{left};
ghost use Rattle.script_print.specs.Texts.{Prints};
ghost use Rattle.reason_text.specs.Words.{visible, shown, skipped, quoted};
ghost use Rattle.reason_text.specs.Texts.{kind_text, named, wanted, missing, words_text, reason_text};

use reasons::Reason;
use script_lex::lex::Words;
use script_print::Text;

// A byte as it is shown: a question mark for what is not printable ASCII.
#[tactic(auto, unfolding(crate::specs::Words::visible))]
fn visible_of(b: u8) -> u8
    ensures { result ≡ visible b }
{
    match b {
        b' '..=b'~' => b,
        _ => b'?',
    }
}

// The bytes as they are shown.
fn put_shown(text: &mut Text, bytes: &[u8])
    ensures { Prints text.old text.new (shown bytes.now) }
{
    for b in bytes {
        text.push_byte(visible_of(*b));
    }
}

// The words behind the first `place`.
fn skip(words: Words<'_>, place: usize) -> Words<'_>
    ensures { left result ≡ skipped place (left words.entry) }
{
    let mut here = words;
    for _ in 0..place {
        here = here.rest();
    }
    here
}

// The first word, as far as 40 bytes.
fn put_first(text: &mut Text, words: Words)
    ensures { Prints text.old text.new (shown (take 40 (first (left words.entry)))) }
{
    let word = words.first();
    put_shown(text, &word[..40.min(word.len())]);
}

// A word in quotes.
fn put_quoted(text: &mut Text, words: Words, place: usize)
    ensures { Prints text.old text.new (quoted place (left words.entry)) }
{
    text.push_bytes(b"`");
    put_first(text, skip(words, place));
    text.push_bytes(b"`");
}

// What is wanted.
#[tactic(auto, unfolding(crate::specs::Texts::kind_text, crate::specs::Texts::choice_text))]
fn put_kind(text: &mut Text, kind: u8)
    ensures { Prints text.old text.new (kind_text kind) }
{
    match kind {
        b'n' | b'v' => text.push_bytes(b"a number from 0 to 18446744073709551615"),
        b'b' => text.push_bytes(b"a number from 0 to 255"),
        b'w' => text.push_bytes(b"a number from 0 to 4294967295"),
        b'i' => text.push_bytes(b"a number from -2147483648 to 2147483647"),
        b't' => text.push_bytes(b"never or a number from 0 to 18446744073709551615"),
        b'o' => text.push_bytes(b"none or a number from 0 to 18446744073709551615"),
        b'f' => text.push_bytes(b"0 or 1"),
        b'a' => text.push_bytes(b"x64 or x86"),
        b'm' => text.push_bytes(b"image or pool"),
        b's' => text.push_bytes(b"any or all"),
        b'k' => text.push_bytes(b"mutex, event, timer or thread"),
        _ => text.push_bytes(b"a call of the clock"),
    }
}

// A text and a word behind it.
fn put_named(text: &mut Text, name: &[u8], words: Words, place: usize)
    ensures { Prints text.old text.new (named name.now place (left words.entry)) }
{
    text.push_bytes(name);
    put_quoted(text, words, place);
}

// A word, a text and what is wanted.
fn put_wanted(text: &mut Text, words: Words, place: usize, name: &[u8], kind: u8)
    ensures { Prints text.old text.new (wanted place (left words.entry) name.now kind) }
{
    put_quoted(text, words, place);
    text.push_bytes(name);
    put_kind(text, kind);
}

fn put_missing(text: &mut Text, kind: u8)
    ensures { Prints text.old text.new (missing kind) }
{
    text.push_bytes(b"an argument is missing: expected ");
    put_kind(text, kind);
}

// The reason of a line, by its words.
fn put_text(text: &mut Text, words: Words, reason: Option<Reason>)
    ensures { Prints text.old text.new (words_text reason (left words.entry)) }
{
    let Some(reason) = reason else {
        return text.push_bytes(b"the line can be read");
    };
    match reason {
        Reason::TooLong => text.push_bytes(b"the line has more than 4096 bytes"),
        Reason::NoWord => text.push_bytes(b"the line has no word"),
        Reason::UnknownWord(place) => put_named(text, b"unknown word ", words, place),
        Reason::Missing(_, kind) => put_missing(text, kind),
        Reason::NotNumber(place, kind) => {
            put_wanted(text, words, place, b" is not a number: expected ", kind)
        }
        Reason::OutOfRange(place, kind) => {
            put_wanted(text, words, place, b" is out of range: expected ", kind)
        }
        Reason::NotListed(place, kind) => {
            put_wanted(text, words, place, b" is not known here: expected ", kind)
        }
        Reason::Extra(place) => put_named(text, b"extra argument ", words, place),
        Reason::BeforeOpen => text.push_bytes(b"no open has succeeded yet"),
        Reason::SecondOpen => text.push_bytes(b"an open has succeeded already"),
        Reason::BeforeClock => text.push_bytes(b"no clock new has succeeded yet"),
    }
}

// The reason of a line, which comes without its newline.
pub fn put_reason(text: &mut Text, line: &[u8], reason: Option<Reason>)
    ensures { Prints text.old text.new (reason_text line.now reason) }
{
    let n = script::text_length(line);
    put_text(text, Words::of(&line[..n]), reason);
}
