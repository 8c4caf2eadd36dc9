// Decimal numbers in a text.
ghost use Rattle.std.specs.Prelude.{◌≡◌, true, drop, SomeIff};
ghost use Rattle.clock_replay.specs.Decimal.{takes, with_digit, scanned};

// A number, and where the text goes on behind it.
#[derive(Clone, Copy)]
pub struct Number {
    pub value: u64,
    pub next: usize,
}

// `n` with `b` behind it, where `b` is a digit and 64 bits hold the number.
fn with_digit(n: u64, b: u8) -> Option<u64>
    ensures { SomeIff result (takes n b ≡ true) (with_digit n b) }
{
    if b < b'0' || b'9' < b {
        return None;
    }
    n.checked_mul(10)?.checked_add((b - b'0') as u64)
}

// The number whose digits start at `from`; 0 where none stand there.
pub fn scan(text: &[u8], from: usize) -> Number
    ensures { result ≡ scanned (drop from text.now) from 0 }
{
    let mut value: u64 = 0;
    for next in from..text.len() {
        let Some(longer) = with_digit(value, text[next]) else {
            return Number { value, next };
        };
        value = longer;
    }
    Number {
        value,
        next: from.max(text.len()),
    }
}
