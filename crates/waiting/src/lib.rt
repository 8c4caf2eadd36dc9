// The calls by which the current thread waits.
#![tactic(auto)]

ghost use Rattle.std.specs.Prelude.{◌≡◌, ◌≤◌, ◌==◌, not, drop};
ghost use Rattle.answers.specs.Errors.{refusal, answer_of};
ghost use Rattle.answers.specs.Outcome.{outcome};
ghost use Rattle.waiting.specs.Wait.{pair_count, list_refusal, wait_refusal, block_refusal, reached, with_result, left, parked, blocked_words, granted, timed_out, decided, waited, delay_wait, delayed, told_result, told};

use answers::error::SchedulerError;
use answers::{Answer, ThreadId};
use chains::ready;
use waits::lists::Pairs;
use words::layout;

// A wait that has ended.
#[derive(Clone, Copy, Debug, PartialEq, Eq)]
pub enum WaitResult {
    // By an object, the one that the index says where the wait is for any.
    Satisfied(u64),
    Timeout,
}

#[derive(Clone, Copy, Debug, PartialEq, Eq)]
pub enum WaitOutcome {
    Immediate(WaitResult),
    Blocked,
}

impl From<WaitOutcome> for Answer {
    ghost from_gives = { λ o a. a ≡ told o };

    fn from(outcome: WaitOutcome) -> Answer {
        match outcome {
            WaitOutcome::Immediate(WaitResult::Satisfied(i)) => Answer::Satisfied(i),
            WaitOutcome::Immediate(WaitResult::Timeout) => Answer::Timeout,
            WaitOutcome::Blocked => Answer::Blocked,
        }
    }
}

// The pairs of the list, the first 64 of them.
#[tactic(auto, unfolding(crate::specs::Wait::pair_count))]
fn pairs(list: &[u64]) -> Pairs<'_>
    ensures src { result.src.now ≡ list.now }
    ensures at { result.at ≡ 0 }
    ensures n { result.n ≡ pair_count list.now }
{
    Pairs {
        src: list,
        at: 0,
        n: (list.len() / 2).min(64),
    }
}

// Whether the list is one to wait for: 1 to 64 pairs, no kind over 3, no duplicate.
#[tactic(auto, unfolding(crate::specs::Wait::list_refusal))]
fn check_list(list: &[u64]) -> Result<(), SchedulerError>
    ensures { refusal result ≡ list_refusal list.now }
{
    if list.len() % 2 != 0 || list.is_empty() || 128 < list.len() {
        return Err(SchedulerError::InvalidList);
    }
    let list = pairs(list);
    if list.has_bad_kind() || list.has_duplicate() {
        return Err(SchedulerError::InvalidList);
    }
    Ok(())
}

#[tactic(auto, unfolding(crate::specs::Wait::wait_refusal))]
fn check_wait(w: &[u64], list: &[u64]) -> Result<(), SchedulerError>
    ensures { refusal result ≡ wait_refusal w.now list.now }
{
    let ThreadId(id) = threading::current(w).ok_or(SchedulerError::NoCurrentThread)?;
    check_list(list)?;
    let list = pairs(list);
    if list.has_unknown(w) {
        return Err(SchedulerError::Unknown);
    }
    if list.has_owned(w, id) {
        return Err(SchedulerError::OwnMutex);
    }
    Ok(())
}

// Whether a thread may block: not over IRQL 1, nor where no wait sequence is left.
#[tactic(auto, unfolding(crate::specs::Wait::block_refusal))]
fn check_block(w: &[u64], irql: u64) -> Result<(), SchedulerError>
    ensures { refusal result ≡ block_refusal w.now irql }
{
    if 1 < irql {
        return Err(SchedulerError::InvalidIrql);
    }
    if words::get(w, layout::SEQUENCE) == u64::MAX {
        return Err(SchedulerError::CountOverflow);
    }
    Ok(())
}

// Whether the wait's deadline, if it has one, has been reached.
#[tactic(auto, unfolding(crate::specs::Wait::reached))]
fn is_reached(w: &[u64], x: &threads::Wait) -> bool
    ensures { result ≡ reached w.now (not (x.now.timed == 0)) x.now.deadline }
{
    x.timed != 0 && x.deadline <= words::get(w, layout::NOW)
}

#[tactic(auto, unfolding(crate::specs::Wait::with_result))]
fn set_result(w: &mut [u64], id: u64, res: u64)
    ensures { w.new ≡ with_result w.old id res }
{
    words::put_in(w, layout::thread_at(id), layout::RESULT, res);
}

// No thread current, and the sequence of the next wait.
#[tactic(auto, unfolding(crate::specs::Wait::left))]
fn leave(w: &mut [u64], sequence: u64)
    ensures { w.new ≡ left w.old sequence }
{
    words::put(w, layout::CURRENT, 0);
    words::put(w, layout::SEQUENCE, sequence.wrapping_add(1));
}

// The thread waiting, last in the order of blocking.
#[tactic(auto, unfolding(crate::specs::Wait::parked))]
fn park(w: &mut [u64], id: u64)
    ensures { w.new ≡ parked w.old id }
{
    let t = threads::Thread {
        state: threads::WAITING,
        result: threads::NO_RESULT,
        ..threads::read_thread(w, id)
    };
    threads::write_thread(w, id, t);
    ready::waiters_chain().push(w, id);
}

// That the count is at most 64 is asked here, in `decide` and in `threads::write_wait`, and is no ghost field of `threads::Wait`: the
// definitions make a record of any count.
#[tactic(auto, unfolding(crate::specs::Wait::blocked_words))]
fn block(w: &mut [u64], id: u64, x: threads::Wait)
    requires { x.count ≤ 64 }
    ensures { w.new ≡ blocked_words w.old id x }
{
    leave(w, x.sequence);
    threads::write_wait(w, id, x);
    park(w, id);
}

// A wait that is granted at once.
fn grant(w: &mut [u64], id: u64, list: &Pairs<'_>, all: u64) -> WaitResult
    ensures { outcome (told_result result) w.new ≡ granted w.old id (drop list.now.at list.now.src.now) list.now.n all }
{
    let i = list.index(w, all);
    list.take(w, id, all);
    set_result(w, id, i.wrapping_add(threads::SATISFIED));
    WaitResult::Satisfied(i)
}

#[tactic(auto, unfolding(crate::specs::Wait::timed_out))]
fn time_out(w: &mut [u64], id: u64) -> WaitResult
    ensures { outcome (told_result result) w.new ≡ timed_out w.old id }
{
    set_result(w, id, threads::TIMEOUT);
    WaitResult::Timeout
}

// A wait that nothing grants: a timeout, a refusal to block, or blocked.
#[tactic(auto, unfolding(crate::specs::Wait::decided))]
fn decide(
    w: &mut [u64],
    id: u64,
    irql: u64,
    x: threads::Wait,
) -> Result<WaitOutcome, SchedulerError>
    requires { x.count ≤ 64 }
    ensures { outcome (answer_of told result) w.new ≡ decided w.old id (not (x.timed == 0)) irql x }
{
    if is_reached(w, &x) {
        return Ok(WaitOutcome::Immediate(time_out(w, id)));
    }
    check_block(w, irql)?;
    block(w, id, x);
    Ok(WaitOutcome::Blocked)
}

// The current thread waits for any or all of the objects of `list`, pairs of a kind and a key. No Option of a deadline: the words keep
// it as it is given also where it does not count, and `raw_exports` promises that.
#[tactic(auto, using(crate::proofs::WaitLaws::recorded_timed, crate::proofs::WaitLaws::recorded_count), unfolding(crate::specs::Wait::waited, crate::specs::Wait::decided_list))]
pub fn wait(
    w: &mut [u64],
    list: &[u64],
    all: bool,
    timed: bool,
    deadline: u64,
    irql: u8,
) -> Result<WaitOutcome, SchedulerError>
    ensures { outcome (answer_of told result) w.new ≡ waited w.old list.now all timed deadline irql }
{
    check_wait(w, list)?;
    let id = words::get(w, layout::CURRENT);
    let pairs = pairs(list);
    let every = u64::from(all);
    if pairs.is_met(w, every) {
        return Ok(WaitOutcome::Immediate(grant(w, id, &pairs, every)));
    }
    let sequence = words::get(w, layout::SEQUENCE);
    let x = threads::record_of(list, pairs.n, every, u64::from(timed), deadline, sequence);
    decide(w, id, u64::from(irql), x)
}

// A wait for no object, until a deadline.
#[tactic(auto, unfolding(crate::specs::Wait::delay_wait))]
fn delay_wait(deadline: u64, sequence: u64) -> threads::Wait
    ensures { result ≡ delay_wait deadline sequence }
{
    threads::Wait {
        all: 0,
        timed: 1,
        deadline,
        sequence,
        count: 0,
        places: [0u64; 128],
    }
}

// The current thread waits for the deadline alone.
#[tactic(auto, unfolding(crate::specs::Wait::delayed, crate::specs::Wait::delay_wait))]
pub fn delay_until(w: &mut [u64], deadline: u64, irql: u8) -> Result<WaitOutcome, SchedulerError>
    ensures { outcome (answer_of told result) w.new ≡ delayed w.old deadline irql }
{
    if 1 < irql {
        return Err(SchedulerError::InvalidIrql);
    }
    let ThreadId(id) = threading::current(w).ok_or(SchedulerError::NoCurrentThread)?;
    let sequence = words::get(w, layout::SEQUENCE);
    decide(w, id, u64::from(irql), delay_wait(deadline, sequence))
}
