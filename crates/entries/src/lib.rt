// The objects by their entry in the table, so that a list of them is read in one walk: an entry of another kind answers none, and past
// the last entry is 2.
#![tactic(auto)]

ghost use Rattle.std.specs.Prelude.{◌≡◌};
ghost use Rattle.answers.specs.Errors.{answer_of, told_by};
ghost use Rattle.events.specs.Events as events;
ghost use Rattle.timers.specs.TimerAnswer as timer;
ghost use Rattle.timers.specs.Reads as timers;
ghost use Rattle.entries.specs.Entries.{event_entry, timer_entry};

use answers::error::SchedulerError;
use events::Event;
use images::Timer;
use words::layout;

#[tactic(auto, unfolding(crate::specs::Entries::event_entry))]
pub fn event_entry(w: &[u64], entry: u64) -> Result<Option<Event>, SchedulerError>
    ensures { answer_of events.told result ≡ event_entry w.now «entry» }
{
    if objects::count(w) <= entry {
        return Err(SchedulerError::Unknown);
    }
    let at = layout::entry_at(objects::objects_base(w), entry);
    if event_release::is_event(w, at) {
        return Ok(events::event_at(w, at));
    }
    Ok(None)
}

#[tactic(auto, unfolding(crate::specs::Entries::timer_entry))]
pub fn timer_entry(w: &[u64], entry: u64) -> Result<Option<Timer>, SchedulerError>
    ensures { told_by timers.told timer.Refused result ≡ timer_entry w.now «entry» }
{
    if objects::count(w) <= entry {
        return Err(SchedulerError::Unknown);
    }
    let at = layout::entry_at(objects::objects_base(w), entry);
    if timers::record::is_timer(w, at) {
        return Ok(Some(timers::record::read_timer(w, at)));
    }
    Ok(None)
}
