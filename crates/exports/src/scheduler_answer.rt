// A scheduler's answer in lent words: a tag, and the answer's values behind it.
ghost use Rattle.std.specs.Prelude.{◌≡◌, List, ℕ};
ghost use Rattle.answers.specs.declared.Answer.{Answer};
ghost use Rattle.answers.specs.Outcome.{Outcome};
ghost use Rattle.calls.specs.Guard as kind;
ghost use Rattle.calls.specs.Images.{Imaged};
ghost use Rattle.exports.specs.RecordCall.{read_by, given_image, imaged_by, Writes};
ghost use Rattle.exports.specs.SchedulerAnswer.{refusal_of, answer_in, tagged, valued, evented, given, changed_by, Does, Reads};
ghost use Rattle.answers.specs.Outcome.{bit};

use super::tags;
use answers::Answer;
use answers::error::SchedulerError;

// Answers 0, which no refusal is.
pub fn tag(out: &mut [u64], t: u64) -> u64
    ensures { (result ≡ 0) × (out.new ≡ tagged out.old t) }
{
    words::put(out, 0, t);
    0
}

fn value(out: &mut [u64], t: u64, v: u64) -> u64
    ensures { (result ≡ 0) × (out.new ≡ valued out.old t v) }
{
    words::put(out, 0, t);
    words::put(out, 1, v);
    0
}

// A function of its own, so that each word put says `bit`.
pub fn flag(b: bool) -> u64
    ensures { result ≡ bit b }
{
    u64::from(b)
}

fn event(out: &mut [u64], key: u64, manual: bool, signaled: bool) -> u64
    ensures { (result ≡ 0) × (out.new ≡ evented out.old key manual signaled) }
{
    words::put(out, 0, tags::EVENT);
    words::put(out, 1, key);
    words::put(out, 2, flag(manual));
    words::put(out, 3, flag(signaled));
    0
}

// The answer written to `out`; the number of a refusal, which writes nothing.
pub fn put_answer(out: &mut [u64], a: Answer) -> u64
    ensures { (result ≡ refusal_of a) × (out.new ≡ answer_in out.old a) }
{
    match a {
        Answer::Refused(n) => n,
        Answer::Done => tag(out, tags::DONE),
        Answer::None => tag(out, tags::NONE),
        Answer::Thread(n) => value(out, tags::THREAD, n),
        Answer::Flag(b) => value(out, tags::FLAG, flag(b)),
        Answer::Count(n) => value(out, tags::COUNT, n),
        Answer::Satisfied(i) => value(out, tags::SATISFIED, i),
        Answer::Timeout => tag(out, tags::TIMEOUT),
        Answer::Blocked => tag(out, tags::BLOCKED),
        Answer::Run(n) => value(out, tags::RUN, n),
        Answer::AdvanceTo(t) => value(out, tags::ADVANCE_TO, t),
        Answer::Deadlocked(n) => value(out, tags::DEADLOCKED, n),
        Answer::Finished => tag(out, tags::FINISHED),
        Answer::Event {
            key,
            manual,
            signaled,
        } => event(out, key, manual, signaled),
    }
}

// A call on the words, and its answer written to `out`; without room for an answer 27, and no call.
pub fn change<T: Into<Answer>, F: FnOnce(&mut [u64]) -> T>(
    words: &mut [u64],
    out: &mut [u64],
    call: F,
) -> u64
    requires { F.IsAlwaysCallable call }
    ensures { (f : List ℕ → Outcome) → Does (F.post call) T.converts f → given result words.new out.new ≡ changed_by words.old out.old (f words.old) }
{
    if out.len() < 4 {
        return SchedulerError::OutOfForm.number();
    }
    let answer = call(words);
    put_answer(out, answer.into())
}

// A call that writes an image to `bytes`, and its answer written to `out`; without room for the answer 27, and no call. Apart from `change`:
// an image leaves the words, and what is given has a definition of its own.
pub fn image<F: FnOnce(&mut [u8]) -> Result<u64, SchedulerError>>(
    bytes: &mut [u8],
    out: &mut [u64],
    call: F,
) -> u64
    requires { F.IsAlwaysCallable call }
    ensures { (f : List ℕ → Imaged) → Writes (F.post call) f → given_image result bytes.new out.new ≡ imaged_by bytes.old out.old (f bytes.old) }
{
    if out.len() < 4 {
        return SchedulerError::OutOfForm.number();
    }
    let answer = call(bytes);
    put_answer(out, answer.into())
}

// What a read answers, written to `out`; without room for an answer 27, and no read.
pub fn answer<T: Into<Answer>, F: FnOnce() -> T>(out: &mut [u64], read: F) -> u64
    requires { F.IsAlwaysCallable read }
    ensures { (a : Answer) → Reads (F.post read) T.converts a → (w : List ℕ) → given result w out.new ≡ read_by kind.plain w out.old a }
{
    if out.len() < 4 {
        return SchedulerError::OutOfForm.number();
    }
    let told = read().into();
    put_answer(out, told)
}
