// An answer as a line of text.
#![tactic(auto)]

ghost use Rattle.std.specs.Prelude.{◌≡◌, [], ◌∷◌, ◌++◌, ◌+◌, ◌%◌, ◌≤◌, length, drop, take};
ghost use Rattle.script_print.specs.Print.{digit_of, decimal, written, printed, spaced, flag_text, answer_text, answer_line, bare_answer};
ghost use Rattle.script_print.specs.Texts.{Prints};

use answers::Answer;

// As many of the bytes as fit from place `at` on; the place behind them.
fn put_bytes(text: &mut [u8], at: usize, bytes: &[u8]) -> usize
    ensures { written text.new result ≡ printed text.old at bytes.now }
{
    if text.len() <= at {
        return at;
    }
    let fitting = bytes.len().min(text.len() - at);
    let end = at + fitting;
    text[at..end].copy_from_slice(&bytes[..fitting]);
    end
}

// The last digit of a number.
fn digit(n: u64) -> u8
    ensures { result ≡ digit_of n }
{
    48 + ((n % 10) as u8)
}

// Puts the digits of `n` at the end of `digits`, and answers where they start. By hand: no formatter writes into a lent buffer by a contract that
// names the bytes.
fn spell(n: u64, digits: &mut [u8]) -> usize
    requires { length digits.old ≡ 20 }
    ensures digits { drop result digits.new ≡ decimal n }
    ensures within { result ≤ 20 }
{
    let mut rest = n;
    for i in (0..20).rev() {
        digits[i] = digit(rest);
        if rest < 10 {
            return i;
        }
        rest /= 10;
    }
    0
}

// A text that is written to: the bytes lent, and the place behind what has been written. Each writer goes as far as there is room.
#[derive(Drop)]
pub struct Text<'a> {
    pub bytes: &'a mut [u8],
    pub at: usize,
}

impl<'a> Text<'a> {
    pub fn push_bytes(&mut self, bytes: &[u8])
        ensures { Prints self.old self.new bytes.now }
    {
        self.at = put_bytes(self.bytes, self.at, bytes);
    }

    #[tactic(auto, unfolding(crate::specs::Print::printed))]
    pub fn push_byte(&mut self, b: u8)
        ensures { Prints self.old self.new (b ∷ []) }
    {
        if self.at < self.bytes.len() {
            self.bytes[self.at] = b;
            self.at += 1;
        }
    }

    pub fn push_number(&mut self, n: u64)
        ensures { Prints self.old self.new (decimal n) }
    {
        let mut digits = [0u8; 20];
        let start = spell(n, &mut digits);
        self.push_bytes(&digits[start..]);
    }

    // A word and a number behind it.
    fn push_named(&mut self, name: &[u8], n: u64)
        ensures { Prints self.old self.new (name.now ++ decimal n) }
    {
        self.push_bytes(name);
        self.push_number(n);
    }

    // Numbers, each behind a space: the first `count` of them, or all where there are fewer.
    fn push_list(&mut self, numbers: &[u64], count: u64)
        ensures { Prints self.old self.new (spaced (take count numbers.now)) }
    {
        let most = (count as usize).min(numbers.len());
        let told = &numbers[..most];
        for n in told {
            self.push_named(b" ", *n);
        }
    }

    fn push_deadlocked(&mut self, numbers: &[u64], count: u64)
        ensures { Prints self.old self.new (answer_text (Answer.Deadlocked count) numbers.now) }
    {
        self.push_bytes(b"deadlocked");
        self.push_list(numbers, count);
    }

    fn push_flag(&mut self, flag: bool)
        ensures { Prints self.old self.new (flag_text flag) }
    {
        if flag {
            self.push_bytes(b"yes")
        } else {
            self.push_bytes(b"no")
        }
    }

    pub fn push_answer(&mut self, a: Answer, numbers: &[u64])
        ensures { Prints self.old self.new (answer_text a numbers.now) }
    {
        match a {
            Answer::Refused(n) => self.push_named(b"refused ", n),
            Answer::Done => self.push_bytes(b"ok"),
            Answer::None => self.push_bytes(b"none"),
            Answer::Thread(n) => self.push_named(b"thread ", n),
            Answer::Flag(flag) => self.push_flag(flag),
            Answer::Count(n) => self.push_number(n),
            Answer::Satisfied(n) => self.push_named(b"satisfied ", n),
            Answer::Timeout => self.push_bytes(b"timeout"),
            Answer::Blocked => self.push_bytes(b"blocked"),
            Answer::Run(n) => self.push_named(b"run ", n),
            Answer::AdvanceTo(n) => self.push_named(b"advance ", n),
            Answer::Deadlocked(n) => self.push_deadlocked(numbers, n),
            Answer::Finished => self.push_bytes(b"finished"),
            Answer::Event { .. } => self.push_bytes(b"none"),
        }
    }
}

// The answer of a call that answers a thread's number alone, as `current` and `mutex_owner` do.
pub fn bare(a: Answer) -> Answer
    ensures { result ≡ bare_answer a }
{
    match a {
        Answer::Thread(n) => Answer::Count(n),
        _ => a,
    }
}

// The line of an answer, with the number of the line that it answers, at place `at` of `text`: the place behind it, or the text's end where
// it is cut there. The slice and the place come apart, as a line of `runner` has them.
pub fn write_answer(text: &mut [u8], at: usize, number: u64, a: Answer, numbers: &[u64]) -> usize
    requires { at ≤ length text.old }
    ensures result_after { written text.new result ≡ printed text.old at (answer_line number a numbers.now) }
    ensures upper_bound { result ≤ length text.new }
{
    let mut line = Text { bytes: text, at };
    line.push_number(number);
    line.push_bytes(b" ");
    line.push_answer(a, numbers);
    line.push_bytes(b"\n");
    line.at
}
