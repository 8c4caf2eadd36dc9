// The events by position, and those in memory that the guest gives back. Walks of the object table, one record after another.
#![tactic(auto)]

ghost use Rattle.std.specs.Prelude.{◌≡◌, ◌+◌, IfOk};
ghost use Rattle.objects.specs.Found.{nonzero};
ghost use Rattle.answers.specs.Errors.{refusal, done};
ghost use Rattle.answers.specs.Outcome.{outcome};
ghost use Rattle.events.specs.Events.{told};
ghost use Rattle.event_release.specs.Release.{is_event, nth_event, event_states, key_held, is_held, any_held, release_refusal, release_answer, is_retired, retired, events_retired};

use answers::error::SchedulerError;
use events::Event;
use words::layout;

// Whether the record at place `at` is an event's.
#[tactic(auto, unfolding(crate::specs::Release::is_event))]
pub fn is_event(w: &[u64], at: usize) -> bool
    ensures { result ≡ is_event w.now at }
{
    words::get_in(w, at, layout::KIND) == objects::EVENT
}

// Where the event at the position stands, if there is one.
fn nth_event(w: &[u64], position: u64) -> Option<usize>
    ensures { result ≡ nonzero (nth_event w.now position) }
{
    let base = objects::objects_base(w);
    (0..objects::count(w))
        .map(|i| layout::entry_at(base, i))
        .filter(|&at| is_event(w, at))
        .nth(position as usize)
}

// The event at the position, from 0, among the events by rising key.
#[tactic(auto, unfolding(crate::specs::Release::event_states, events::specs::Events::state_at))]
pub fn event_states(w: &[u64], position: u64) -> Option<Event>
    ensures { told result ≡ event_states w.now position }
{
    events::event_at(w, nth_event(w, position)?)
}

// Memory from `lo` on and below `hi`.
#[derive(Clone, Copy)]
struct Memory {
    lo: u64,
    hi: u64,
}

// Whether the event, `span` long, keeps the memory from being given back.
#[tactic(auto, unfolding(crate::specs::Release::key_held))]
fn is_key_held(w: &[u64], key: u64, memory: Memory, span: u64) -> bool
    ensures { result ≡ key_held w.now key memory.lo memory.hi span }
{
    let Some(end) = key.checked_add(span) else {
        return true;
    };
    if memory.hi <= key || end <= memory.lo {
        return false;
    }
    key < memory.lo || memory.hi < end || wakes::waits_on(w, objects::EVENT, key)
}

#[tactic(auto, unfolding(crate::specs::Release::is_held))]
fn is_held(w: &[u64], at: usize, memory: Memory, span: u64) -> bool
    ensures { result ≡ is_held w.now at memory.lo memory.hi span }
{
    is_event(w, at) && is_key_held(w, words::get_in(w, at, layout::KEY), memory, span)
}

// Proved by `any_from_walk`, as every walk of a table with a test.
fn any_held(w: &[u64], memory: Memory, span: u64) -> bool
    ensures { result ≡ any_held w.now memory.lo memory.hi span }
{
    let base = objects::objects_base(w);
    (0..objects::count(w)).any(|i| is_held(w, layout::entry_at(base, i), memory, span))
}

// The `size` bytes from `base` on, if they may be given back.
#[tactic(auto, unfolding(crate::specs::Release::release_refusal))]
fn check_release(w: &[u64], base: u64, size: u64, span: u64) -> Result<Memory, SchedulerError>
    ensures refused { refusal result ≡ release_refusal w.now base size span }
    ensures memory { IfOk result (λ m. (m.lo ≡ base) × (m.hi ≡ base + size)) }
{
    let hi = base.checked_add(size).ok_or(SchedulerError::NotReleasable)?;
    let memory = Memory { lo: base, hi };
    if size == 0 || span == 0 || any_held(w, memory, span) {
        return Err(SchedulerError::NotReleasable);
    }
    Ok(memory)
}

// Whether `size` bytes from `base` on may be given back, where an event is `layout` bytes long.
#[tactic(auto, unfolding(crate::specs::Release::release_answer))]
pub fn require_event_release(
    w: &[u64],
    base: u64,
    size: u64,
    layout: u64,
) -> Result<(), SchedulerError>
    ensures { done result ≡ release_answer w.now base size layout }
{
    check_release(w, base, size, layout)?;
    Ok(())
}

// Whether the record is of an event in the memory.
#[tactic(auto, unfolding(crate::specs::Release::is_retired))]
fn is_retired(w: &[u64], at: usize, memory: Memory) -> bool
    ensures { result ≡ is_retired w.now at memory.lo memory.hi }
{
    if !is_event(w, at) {
        return false;
    }
    let key = words::get_in(w, at, layout::KEY);
    memory.lo <= key && key < memory.hi
}

// The events in the memory taken out of the table; the other objects keep their order.
fn retire(w: &mut [u64], memory: Memory)
    ensures { w.new ≡ retired w.old memory.lo memory.hi }
{
    let base = objects::objects_base(w);
    let n = objects::count(w);
    let stay = tables::retain(w, base, n, |w, at| is_retired(w, at, memory));
    words::put(w, layout::OBJECTS, stay);
}

// The memory given back, and its events no more.
#[tactic(auto, unfolding(crate::specs::Release::events_retired))]
pub fn retire_event_backing(
    w: &mut [u64],
    base: u64,
    size: u64,
    layout: u64,
) -> Result<(), SchedulerError>
    ensures { outcome (done result) w.new ≡ events_retired w.old base size layout }
{
    let memory = check_release(w, base, size, layout)?;
    retire(w, memory);
    Ok(())
}
