// The line of a wait: `any` or `all`, the deadline, the IRQL, and pairs of a kind and a key, which go into the lent list.
ghost use Rattle.std.specs.Prelude.{◌≡◌};
ghost use Rattle.script_lex.specs.Words.{first};
ghost use Rattle.script_lex.specs.Left.{left};
ghost use Rattle.script.specs.Wait.{kind_of, item_of, paired, pairs_of, taken, wait_from, wait_until, wait_line};

use script_lex::command::Command;
use script_lex::lex::Words;

// The kind of an object that the first word names. It is no enum: the number is what the list takes, as C lends it.
#[tactic(auto, unfolding(crate::specs::Wait::kind_of))]
fn kind(words: Words) -> Option<u64>
    ensures { result ≡ kind_of (first (left words.entry)) }
{
    if words.is(b"mutex") {
        return Some(0);
    }
    if words.is(b"event") {
        return Some(1);
    }
    if words.is(b"timer") {
        return Some(2);
    }
    if words.is(b"thread") {
        return Some(3);
    }
    None
}

// Number `i` of the pairs: a kind where `i` is even, else a key.
#[tactic(auto, unfolding(crate::specs::Wait::item_of))]
fn item(words: Words, i: usize) -> Option<u64>
    ensures { result ≡ item_of i (first (left words.entry)) }
{
    if i % 2 == 0 {
        return kind(words);
    }
    words.number(u64::MAX)
}

// How many numbers the pairs are. Not a `for` over the words: the place in the list is the count, which would be kept beside them.
fn read_pairs(words: Words, list: &mut [u64]) -> Option<usize>
    ensures { paired result list.new ≡ pairs_of (left words.entry) 0 list.old }
{
    let mut rest = words;
    for i in 0..list.len() {
        if rest.is_end() {
            return Some(i);
        }
        list[i] = item(rest, i)?;
        rest = rest.rest();
    }
    if rest.is_end() {
        return Some(list.len());
    }
    None
}

#[tactic(auto, unfolding(crate::specs::Wait::wait_from, crate::specs::Wait::with_irql, crate::specs::Wait::wait_command))]
fn read_irql(words: Words, all: bool, deadline: Option<u64>, list: &mut [u64]) -> Option<Command>
    ensures { taken result list.new ≡ wait_from all deadline (left words.entry) list.old }
{
    let irql = words.number(255)?;
    let count = read_pairs(words.rest(), list)?;
    Some(Command::Wait {
        all,
        deadline,
        irql: irql as u8,
        count,
    })
}

#[tactic(auto, unfolding(crate::specs::Wait::wait_until, crate::specs::Wait::with_deadline))]
fn read_deadline(words: Words, all: bool, list: &mut [u64]) -> Option<Command>
    ensures { taken result list.new ≡ wait_until all (left words.entry) list.old }
{
    let rest = words.rest();
    if words.is(b"never") {
        return read_irql(rest, all, None, list);
    }
    let deadline = words.number(u64::MAX)?;
    read_irql(rest, all, Some(deadline), list)
}

#[tactic(auto, unfolding(crate::specs::Wait::wait_line))]
pub fn read_wait(words: Words, list: &mut [u64]) -> Option<Command>
    ensures { taken result list.new ≡ wait_line (left words.entry) list.old }
{
    let rest = words.rest();
    if words.is(b"any") {
        return read_deadline(rest, false, list);
    }
    if words.is(b"all") {
        return read_deadline(rest, true, list);
    }
    None
}
