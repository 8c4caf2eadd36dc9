// Dispatch: which thread runs, or what there is to wait for.
ghost use Rattle.std.specs.Prelude.{◌≡◌, ◌≤◌, is_some, unwrap_or};
ghost use Rattle.answers.specs.declared.Answer.TheVariants as answer;
ghost use Rattle.answers.specs.Errors.{answer_of};
ghost use Rattle.answers.specs.Outcome.{outcome, bit};
ghost use Rattle.dispatcher.specs.Dispatched.{dispatched, answered};
ghost use Rattle.dispatcher.specs.Dispatch.{sooner, due_after, soonest, ran, is_waiting, noted, noted_to, listed, listed_to, told};

use super::outcome::Dispatch;
use super::timer_due::next_time;
use answers::ThreadId;
use answers::error::SchedulerError;
use chains::ready;
use words::layout;

// The sooner of what was seen so far and one more time, if there is any.
#[tactic(auto, unfolding(crate::specs::Dispatch::sooner, crate::specs::Dispatch::due_at))]
pub fn sooner(seen: Option<u64>, next: Option<u64>) -> Option<u64>
    ensures { result ≡ sooner seen (bit (is_some next)) (unwrap_or next 0) }
{
    match (seen, next) {
        (Some(a), Some(b)) if b < a => Some(b),
        (None, _) => next,
        _ => seen,
    }
}

#[tactic(auto, unfolding(crate::specs::Dispatch::due_after, crate::specs::Dispatch::sooner))]
fn due_after(w: &[u64], seen: Option<u64>, id: u64) -> Option<u64>
    ensures { result ≡ due_after w.now seen id }
{
    let at = layout::thread_at(id);
    if words::get_in(w, at, layout::HAS_DEADLINE) == 0 {
        return seen;
    }
    sooner(seen, Some(words::get_in(w, at, layout::DEADLINE)))
}

// The smallest deadline of the waiting threads.
pub fn soonest(w: &[u64]) -> Option<u64>
    ensures { result ≡ soonest w.now }
{
    ready::waiters_chain()
        .members(w)
        .fold(None, |seen, id| due_after(w, seen, id))
}

// The first thread of priority `p`'s queue made current. Answers its number.
#[tactic(auto, unfolding(crate::specs::Dispatch::ran))]
fn run_first(w: &mut [u64], p: u64) -> u64
    ensures { outcome (answer.Run result) w.new ≡ ran w.old p }
{
    let id = ready::ready_chain(p).front(w);
    let t = threads::Thread {
        state: threads::RUNNING,
        ..threads::read_thread(w, id)
    };
    ready::unplace(w, p, id);
    threads::write_thread(w, id, t);
    words::put(w, layout::CURRENT, id);
    id
}

#[tactic(auto, unfolding(crate::specs::Dispatch::is_waiting))]
pub fn is_waiting(w: &[u64], id: u64) -> bool
    ensures { result ≡ is_waiting w.now id }
{
    words::get_in(w, layout::thread_at(id), layout::STATE) == threads::WAITING
}

// A waiting thread's number at place `k` of the output. Answers the next place.
#[tactic(auto, unfolding(crate::specs::Dispatch::noted, crate::specs::Dispatch::noted_to))]
fn note(w: &[u64], out: &mut [u64], id: u64, k: usize) -> usize
    requires { k ≤ 256 }
    ensures { (result ≡ noted_to w.now id k) × (out.new ≡ noted w.now out.old id k) }
{
    if is_waiting(w, id) {
        words::put(out, k, id);
        return k + 1;
    }
    k
}

// The waiting threads' numbers, rising. Answers how many.
fn list_waiting(w: &[u64], out: &mut [u64]) -> u64
    ensures { (result ≡ listed_to w.now) × (out.new ≡ listed w.now out.old) }
{
    let mut k: usize = 0;
    for i in 0..threads::count(w) {
        k = note(w, out, i + 1, k);
    }
    k as u64
}

// The current thread; else the first of the highest ready queue, made current; else the smallest waiting deadline or counted
// timer's due; else finished, or deadlocked with the waiting numbers in `out`.
#[tactic(auto, unfolding(crate::specs::Dispatched::dispatched))]
pub fn dispatch(w: &mut [u64], out: &mut [u64]) -> Result<Dispatch, SchedulerError>
    ensures { told (answer_of answered result) w.new out.new ≡ dispatched w.old out.old }
{
    if (out.len() as u64) < words::get(w, layout::THREAD_LIMIT) {
        return Err(SchedulerError::OutOfForm);
    }
    if let Some(ThreadId(id)) = threading::current(w) {
        return Ok(Dispatch::Run(id));
    }
    let p = words::top_bit(words::get(w, layout::READY));
    if p != 0 {
        return Ok(Dispatch::Run(run_first(w, p)));
    }
    if let Some(time) = next_time(w) {
        return Ok(Dispatch::AdvanceTo(time));
    }
    let n = list_waiting(w, out);
    if n == 0 {
        return Ok(Dispatch::Finished);
    }
    Ok(Dispatch::Deadlocked(n))
}
