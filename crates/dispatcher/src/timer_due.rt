// The timers that a dispatch counts when it says what to advance to.
ghost use Rattle.std.specs.Prelude.{◌≡◌};
ghost use Rattle.dispatcher.specs.TimerDue.{is_awaited, timer_counts, due_with, soonest_timer, next_time};

use super::dispatch::{sooner, soonest};
use chains::ready;
use words::layout;

// Whether the timer at place `at` is unsignaled and in a waiter's list.
#[tactic(auto, unfolding(crate::specs::TimerDue::is_awaited))]
fn is_awaited(w: &[u64], at: usize) -> bool
    ensures { result ≡ is_awaited w.now at }
{
    words::get_in(w, at, layout::SIGNALED) == 0
        && wakes::waits_on(w, objects::TIMER, words::get_in(w, at, layout::KEY))
}

// Whether the record at place `at` is of an inserted timer that has a DPC, or is awaited.
#[tactic(auto, unfolding(crate::specs::TimerDue::timer_counts))]
fn counts(w: &[u64], at: usize) -> bool
    ensures { result ≡ timer_counts w.now at }
{
    words::get_in(w, at, layout::KIND) == objects::TIMER
        && words::get_in(w, at, layout::INSERTED) != 0
        && (words::get_in(w, at, layout::TIMER_DPC) != 0 || is_awaited(w, at))
}

#[tactic(auto, unfolding(crate::specs::TimerDue::due_with))]
fn due_with(w: &[u64], seen: Option<u64>, at: usize) -> Option<u64>
    ensures { result ≡ due_with w.now seen at }
{
    if counts(w, at) {
        return sooner(seen, Some(words::get_in(w, at, layout::DUE)));
    }
    seen
}

// The sooner of what was seen and the dues of the timers that count.
fn soonest_timer(w: &[u64], seen: Option<u64>) -> Option<u64>
    ensures { result ≡ soonest_timer w.now seen }
{
    let base = objects::objects_base(w);
    (0..objects::count(w)).fold(seen, |d, i| due_with(w, d, layout::entry_at(base, i)))
}

// The smallest waiting deadline or counted timer's due. Timers count only if some thread waits.
#[tactic(auto, unfolding(crate::specs::TimerDue::next_time))]
pub fn next_time(w: &[u64]) -> Option<u64>
    ensures { result ≡ next_time w.now }
{
    let seen = soonest(w);
    if ready::waiters_chain().front(w) == 0 {
        return seen;
    }
    soonest_timer(w, seen)
}
