// The calls on mutexes. They are total: words out of form get an answer too, if no useful one.
#![tactic(auto)]

ghost use Rattle.std.specs.Prelude.{◌≡◌, ◌+◌, get_or, is_some, unwrap_or};
ghost use Rattle.words.specs.Layout as layout;
ghost use Rattle.answers.specs.declared.Answer.TheVariants as answer;
ghost use Rattle.answers.specs.Errors.{refusal, thread_or_none, answer_of, done};
ghost use Rattle.answers.specs.Outcome.{outcome};
ghost use Rattle.threading.specs.Thread.{numbered};
ghost use Rattle.mutexes.specs.Mutexes.{new_mutex, owner_of, mutex_refusal, initialized, live, known_refusal, adopt_refusal, adopted, owner_answer, waits_for, waiters_answer, released};

use answers::ThreadId;
use answers::error::SchedulerError;
use chains::ready;
use waits::{lists, object};
use words::layout;

#[tactic(auto, unfolding(crate::specs::Mutexes::new_mutex))]
fn new_mutex(owner: Option<u64>) -> objects::Object
    ensures { result ≡ new_mutex (unwrap_or owner 0) }
{
    objects::Object {
        kind: objects::MUTEX,
        manual: 0,
        signaled: 0,
        owner: owner.unwrap_or(0),
    }
}

// The thread that owns the mutex whose record stands at place `at`, if one does.
fn owner_at(w: &[u64], at: usize) -> Option<ThreadId>
    ensures { result ≡ numbered (get_or w.now (at + layout.owner) 0) }
{
    let owner = words::get_in(w, at, layout::OWNER);
    (owner != 0).then_some(ThreadId(owner))
}

// The thread that owns the mutex; none also where there is no such mutex.
#[tactic(auto, unfolding(crate::specs::Mutexes::owner_of))]
fn owner_of(w: &[u64], key: u64) -> Option<ThreadId>
    ensures { result ≡ numbered (owner_of w.now key) }
{
    owner_at(w, objects::place_of(w, objects::MUTEX, key)?)
}

// Whether the key can be a new mutex's, or the mutex that it is made anew.
#[tactic(auto, unfolding(crate::specs::Mutexes::mutex_refusal))]
fn check_mutex(w: &[u64], key: u64) -> Result<(), SchedulerError>
    ensures { refusal result ≡ mutex_refusal w.now key }
{
    if objects::collision(w, objects::MUTEX, key) {
        return Err(SchedulerError::OtherKind);
    }
    if key == 0 || objects::is_full(w, key) {
        return Err(SchedulerError::Full);
    }
    if owner_of(w, key).is_some() || wakes::waits_on(w, objects::MUTEX, key) {
        return Err(SchedulerError::InUse);
    }
    Ok(())
}

#[tactic(auto, unfolding(crate::specs::Mutexes::initialized))]
pub fn initialize_mutex(w: &mut [u64], key: u64) -> Result<(), SchedulerError>
    ensures { outcome (done result) w.new ≡ initialized w.old key }
{
    check_mutex(w, key)?;
    objects::enter(w, key, new_mutex(None));
    Ok(())
}

// Whether there is such a thread and it has not exited. Not the one of `form_threads`: the two definitions differ, this one asks by `exited`.
#[tactic(auto, unfolding(crate::specs::Mutexes::live))]
fn is_live(w: &[u64], id: u64) -> bool
    ensures { result ≡ live w.now id }
{
    threads::is_known(w, id) && !object::is_exited(w, id)
}

// A known mutex may be adopted with the owner it has; a new one as it may be initialized.
#[tactic(auto, unfolding(crate::specs::Mutexes::known_refusal, crate::specs::Mutexes::owner_of))]
fn check_known(w: &[u64], key: u64, owner: Option<u64>) -> Result<(), SchedulerError>
    ensures { refusal result ≡ known_refusal w.now key (unwrap_or owner 0) }
{
    match objects::place_of(w, objects::MUTEX, key) {
        None => check_mutex(w, key),
        Some(at) if words::get_in(w, at, layout::OWNER) == owner.unwrap_or(0) => Ok(()),
        Some(_) => Err(SchedulerError::NotOwner),
    }
}

#[tactic(auto, unfolding(crate::specs::Mutexes::adopt_refusal))]
fn check_adopt(w: &[u64], key: u64, owner: Option<u64>) -> Result<(), SchedulerError>
    ensures { refusal result ≡ adopt_refusal w.now key (is_some owner) (unwrap_or owner 0) }
{
    match owner {
        Some(id) if !is_live(w, id) => Err(SchedulerError::NotOwner),
        _ => check_known(w, key, owner),
    }
}

// A live guest mutex made known; a known one stays as it is.
#[tactic(auto, unfolding(crate::specs::Mutexes::adopted, crate::specs::Mutexes::adopt_refusal))]
pub fn adopt_mutex(w: &mut [u64], key: u64, owner: Option<u64>) -> Result<(), SchedulerError>
    ensures { outcome (done result) w.new ≡ adopted w.old key (is_some owner) (unwrap_or owner 0) }
{
    check_adopt(w, key, owner)?;
    if objects::place_of(w, objects::MUTEX, key).is_none() {
        objects::enter(w, key, new_mutex(owner));
    }
    Ok(())
}

#[tactic(auto, unfolding(crate::specs::Mutexes::owner_answer, crate::specs::Mutexes::owner_of))]
pub fn mutex_owner(w: &[u64], key: u64) -> Result<Option<ThreadId>, SchedulerError>
    ensures { answer_of thread_or_none result ≡ owner_answer w.now key }
{
    let at = objects::place_of(w, objects::MUTEX, key).ok_or(SchedulerError::Unknown)?;
    Ok(owner_at(w, at))
}

// 1 where the waiting thread's list has the mutex.
#[tactic(auto, unfolding(crate::specs::Mutexes::waits_for))]
fn waits_for(w: &[u64], id: u64, key: u64) -> u64
    ensures { result ≡ waits_for w.now id key }
{
    u64::from(lists::places(w, id).has(objects::MUTEX, key))
}

// How many threads wait for the mutex.
pub fn mutex_waiters(w: &[u64], key: u64) -> u64
    ensures { answer.Count result ≡ waiters_answer w.now key }
{
    ready::waiters_chain()
        .members(w)
        .map(|id| waits_for(w, id, key))
        .sum()
}

// The current thread's mutex without owner, and one wake pass.
#[tactic(auto, unfolding(crate::specs::Mutexes::released, crate::specs::Mutexes::release_refusal, crate::specs::Mutexes::freed, crate::specs::Mutexes::owner_of))]
pub fn release_mutex(w: &mut [u64], key: u64) -> Result<(), SchedulerError>
    ensures { outcome (done result) w.new ≡ released w.old key }
{
    let ThreadId(id) = threading::current(w).ok_or(SchedulerError::NoCurrentThread)?;
    let at = objects::place_of(w, objects::MUTEX, key).ok_or(SchedulerError::Unknown)?;
    if words::get_in(w, at, layout::OWNER) != id {
        return Err(SchedulerError::NotOwner);
    }
    words::put_in(w, at, layout::OWNER, 0);
    wakes::wake(w);
    Ok(())
}
