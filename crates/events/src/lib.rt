// The calls on events.
#![tactic(auto)]

ghost use Rattle.std.specs.Prelude.{◌≡◌};
ghost use Rattle.answers.specs.declared.Answer.TheVariants as answer;
ghost use Rattle.answers.specs.Errors.{refusal, answer_of, done};
ghost use Rattle.answers.specs.Outcome.{outcome};
ghost use Rattle.events.specs.Events.{flag, new_event, event_refusal, initialized, told, state_at, event_state, signaled_at, was_set, was_reset};

use answers::Answer;
use answers::error::SchedulerError;
use words::layout;

#[derive(Clone, Copy, Debug, PartialEq, Eq)]
pub struct Event {
    pub key: u64,
    pub manual: bool,
    pub signaled: bool,
}

impl From<Event> for Answer {
    ghost from_gives = { λ e a. a ≡ answer.Event e.key e.manual e.signaled };

    fn from(e: Event) -> Answer {
        Answer::Event {
            key: e.key,
            manual: e.manual,
            signaled: e.signaled,
        }
    }
}

#[tactic(auto, unfolding(crate::specs::Events::new_event))]
fn new_event(manual: bool, signaled: bool) -> objects::Object
    ensures { result ≡ new_event manual signaled }
{
    objects::Object {
        kind: objects::EVENT,
        manual: u64::from(manual),
        signaled: u64::from(signaled),
        owner: 0,
    }
}

// Whether the key can be a new event's, or the event that it is made anew.
#[tactic(auto, unfolding(crate::specs::Events::event_refusal))]
fn check_event(w: &[u64], key: u64) -> Result<(), SchedulerError>
    ensures { refusal result ≡ event_refusal w.now key }
{
    if objects::collision(w, objects::EVENT, key) {
        return Err(SchedulerError::OtherKind);
    }
    if key == 0 || objects::is_full(w, key) {
        return Err(SchedulerError::Full);
    }
    if wakes::waits_on(w, objects::EVENT, key) {
        return Err(SchedulerError::InUse);
    }
    Ok(())
}

#[tactic(auto, unfolding(crate::specs::Events::initialized))]
pub fn initialize_event(
    w: &mut [u64],
    key: u64,
    manual: bool,
    signaled: bool,
) -> Result<(), SchedulerError>
    ensures { outcome (done result) w.new ≡ initialized w.old key manual signaled }
{
    check_event(w, key)?;
    objects::enter(w, key, new_event(manual, signaled));
    Ok(())
}

// The event whose record stands at place `at`, which is no place where it is 0.
#[tactic(auto, unfolding(crate::specs::Events::state_at))]
pub fn event_at(w: &[u64], at: usize) -> Option<Event>
    ensures { told result ≡ state_at w.now at }
{
    if at == 0 {
        return None;
    }
    Some(Event {
        key: words::get_in(w, at, layout::KEY),
        manual: words::get_in(w, at, layout::MANUAL) != 0,
        signaled: words::get_in(w, at, layout::SIGNALED) != 0,
    })
}

#[tactic(auto, unfolding(crate::specs::Events::event_state, crate::specs::Events::state_at))]
pub fn event_state(w: &[u64], key: u64) -> Option<Event>
    ensures { told result ≡ event_state w.now key }
{
    event_at(w, objects::place_of(w, objects::EVENT, key)?)
}

// Whether the event whose record stands at place `at` is signaled.
#[tactic(auto, unfolding(crate::specs::Events::signaled_at))]
fn was_signaled(w: &[u64], at: usize) -> bool
    ensures { result ≡ signaled_at w.now at }
{
    words::get_in(w, at, layout::SIGNALED) != 0
}

// The event signaled, and one wake pass.
#[tactic(auto, unfolding(crate::specs::Events::was_set))]
pub fn set_event(w: &mut [u64], key: u64) -> Result<bool, SchedulerError>
    ensures { outcome (answer_of answer.Flag result) w.new ≡ was_set w.old key }
{
    let at = objects::place_of(w, objects::EVENT, key).ok_or(SchedulerError::Unknown)?;
    let before = was_signaled(w, at);
    words::put_in(w, at, layout::SIGNALED, 1);
    wakes::wake(w);
    Ok(before)
}

#[tactic(auto, unfolding(crate::specs::Events::was_reset))]
pub fn reset_event(w: &mut [u64], key: u64) -> Result<bool, SchedulerError>
    ensures { outcome (answer_of answer.Flag result) w.new ≡ was_reset w.old key }
{
    let at = objects::place_of(w, objects::EVENT, key).ok_or(SchedulerError::Unknown)?;
    let before = was_signaled(w, at);
    words::put_in(w, at, layout::SIGNALED, 0);
    Ok(before)
}
