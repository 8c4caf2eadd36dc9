// What is left of a line, its words from a place on, and the numbers that they tell.
ghost use Rattle.std.specs.Prelude.{◌≡◌, true, ◌+◌, ◌≤◌, pos, neg_ℤ, drop, SomeIff};
ghost use Rattle.script_lex.specs.Words.{blank, blanks, letters, words_at, first, others, none, same};
ghost use Rattle.script_lex.specs.Left.{left};
ghost use Rattle.script_lex.specs.Numbers.{takes, with_digit, number_of, plus, minus, signed_of};

// The words of a line from a place on.
#[derive(Clone, Copy)]
pub struct Words<'a> {
    pub line: &'a [u8],
    pub at: usize,
}

#[tactic(auto, unfolding(crate::specs::Words::blank))]
fn is_blank(b: u8) -> bool
    ensures { result ≡ blank b }
{
    b == b' ' || b == b'\t'
}

// The first place from `from` on where no blank stands. Not by `skip`, which passes the bytes before `from` one by one.
fn word_start(line: &[u8], from: usize) -> usize
    ensures { result ≡ from + blanks (drop from line.now) }
{
    if line.len() <= from {
        return from;
    }
    let passed = line[from..].iter().take_while(|&&b| is_blank(b)).count();
    from + passed
}

// The first place from `from` on where a blank stands, or the line's end.
fn word_end(line: &[u8], from: usize) -> usize
    ensures { result ≡ from + letters (drop from line.now) }
{
    if line.len() <= from {
        return from;
    }
    let passed = line[from..].iter().take_while(|&&b| !is_blank(b)).count();
    from + passed
}

// `n` with `b` behind it, where `b` is a digit and the number is within the limit.
fn with_digit(limit: u64, n: u64, b: u8) -> Option<u64>
    ensures { SomeIff result (takes limit n b ≡ true) (with_digit n b) }
{
    if b < b'0' || b'9' < b {
        return None;
    }
    let longer = n.checked_mul(10)?.checked_add((b - b'0') as u64)?;
    if limit < longer {
        return None;
    }
    Some(longer)
}

// The number whose digits a word has, if it is within the limit.
pub fn number_in(word: &[u8], limit: u64) -> Option<u64>
    ensures { result ≡ number_of limit word.now }
{
    if word.is_empty() {
        return None;
    }
    let mut n: u64 = 0;
    for &b in word {
        n = with_digit(limit, n, b)?;
    }
    Some(n)
}

// The number less than 0 by `n`.
fn negated(n: u64) -> i32
    requires { n ≤ 2147483648 }
    ensures { result ≡ neg_ℤ (pos n) }
{
    (0 - (n as i64)) as i32
}

fn minus_in(digits: &[u8]) -> Option<i32>
    ensures { result ≡ minus (number_of 2147483648 digits.now) }
{
    let n = number_in(digits, 2_147_483_648)?;
    Some(negated(n))
}

fn plus_in(digits: &[u8]) -> Option<i32>
    ensures { result ≡ plus (number_of 2147483647 digits.now) }
{
    let n = number_in(digits, 2_147_483_647)?;
    Some(n as i32)
}

// The signed number that a word tells.
pub fn signed_in(word: &[u8]) -> Option<i32>
    ensures { result ≡ signed_of word.now }
{
    if word.is_empty() {
        return None;
    }
    if word[0] == b'-' {
        return minus_in(&word[1..]);
    }
    plus_in(word)
}

impl<'a> Words<'a> {
    // All the words of a line.
    pub fn of(line: &'a [u8]) -> Self
        ensures words { left result ≡ words_at line.now 0 }
        ensures line { result.line ≡ line.entry }
    {
        Words { line, at: 0 }
    }

    // The words behind the first.
    pub fn rest(self) -> Self
        ensures words { left result ≡ others (left self.entry) }
        ensures line { result.line ≡ self.entry.line }
    {
        Words {
            line: self.line,
            at: word_end(self.line, word_start(self.line, self.at)),
        }
    }

    // Whether no word is left.
    pub fn is_end(self) -> bool
        ensures { result ≡ none (left self.entry) }
    {
        self.line.len() <= word_start(self.line, self.at)
    }

    // The first word, an empty one where there is none.
    pub fn first(self) -> &'a [u8]
        ensures { result.now ≡ first (left self.entry) }
    {
        let from = word_start(self.line, self.at);
        let to = word_end(self.line, from);
        if self.line.len() < to {
            return &[];
        }
        &self.line[from..to]
    }

    // Whether the first word is `name`. Inlined, since a reader asks it of one name after another.
    #[inline(always)]
    pub fn is(self, name: &[u8]) -> bool
        ensures { result ≡ same (first (left self.entry)) name.now }
    {
        self.first() == name
    }

    // The number that the first word tells, if it is within the limit.
    pub fn number(self, limit: u64) -> Option<u64>
        ensures { result ≡ number_of limit (first (left self.entry)) }
    {
        number_in(self.first(), limit)
    }

    // The signed number that the first word tells.
    pub fn signed(self) -> Option<i32>
        ensures { result ≡ signed_of (first (left self.entry)) }
    {
        signed_in(self.first())
    }
}

impl<'a> Iterator for Words<'a> {
    ghost use Rattle.std.specs.Iterator.{YieldsFirstRef, item_count};

    type Item = &'a [u8];

    ghost next_gives = { YieldsFirstRef left };

    ghost remaining = { item_count left };

    fn next(&mut self) -> Option<&'a [u8]> {
        if self.is_end() {
            return None;
        }
        let word = self.first();
        *self = self.rest();
        Some(word)
    }
}
