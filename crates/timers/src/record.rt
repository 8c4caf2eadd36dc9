// A timer's record, and what the records of both tables say to the calls on timers.
ghost use Rattle.std.specs.Prelude.{◌≡◌, ◌+◌, get_or};
ghost use Rattle.words.specs.Layout as layout;
ghost use Rattle.images.specs.Place.{overlaps};
ghost use Rattle.timers.specs.Release.{dpc_stands};
ghost use Rattle.timers.specs.Record.{timer_at, is_timer, is_inserted, size_at, dpc_size_at, busy};

use images::Timer;
use words::layout;

// The timer whose record stands at place `at`.
#[tactic(auto, unfolding(crate::specs::Record::timer_at, crate::specs::Record::backing_at))]
pub fn read_timer(w: &[u64], at: usize) -> Timer
    ensures { result ≡ timer_at w.now at }
{
    Timer {
        address: words::get_in(w, at, layout::KEY),
        architecture: images::architecture_of(words::get_in(w, at, layout::TIMER_ARCHITECTURE)),
        backing: dpcs::record::backing_from(w, at, layout::TIMER_BACKING),
        manual_reset: words::get_in(w, at, layout::MANUAL) != 0,
        signaled: words::get_in(w, at, layout::SIGNALED) != 0,
        inserted: words::get_in(w, at, layout::INSERTED) != 0,
        due: words::get_in(w, at, layout::DUE),
        period_ms: words::get_in(w, at, layout::PERIOD),
        dpc: words::get_in(w, at, layout::TIMER_DPC),
        absolute: words::get_in(w, at, layout::ABSOLUTE) != 0,
        arm_generation: words::get_in(w, at, layout::ARM),
        initialization: words::get_in(w, at, layout::INITIALIZATION),
    }
}

// Whether the object's record at place `at` is a timer's.
#[tactic(auto, unfolding(crate::specs::Record::is_timer))]
pub fn is_timer(w: &[u64], at: usize) -> bool
    ensures { result ≡ is_timer w.now at }
{
    words::get_in(w, at, layout::KIND) == objects::TIMER
}

// Whether the timer at place `at` is inserted.
#[tactic(auto, unfolding(crate::specs::Record::is_inserted))]
pub fn is_inserted(w: &[u64], at: usize) -> bool
    ensures { result ≡ is_inserted w.now at }
{
    words::get_in(w, at, layout::INSERTED) != 0
}

// The bytes of the timer at place `at`.
#[tactic(auto, unfolding(crate::specs::Record::size_at))]
pub fn size_at(w: &[u64], at: usize) -> u64
    ensures { result ≡ size_at w.now at }
{
    images::timer_size(images::architecture_of(words::get_in(w, at, layout::TIMER_ARCHITECTURE)))
}

// The bytes of the DPC at place `at`.
#[tactic(auto, unfolding(crate::specs::Record::dpc_size_at))]
pub fn dpc_size_at(w: &[u64], at: usize) -> u64
    ensures { result ≡ dpc_size_at w.now at }
{
    images::dpc_size(images::architecture_of(words::get_in(w, at, layout::DPC_ARCHITECTURE)))
}

// Whether the timer at place `at` has a byte of the range. A DPC's is apart: its record has other words.
pub fn timer_overlaps(w: &[u64], at: usize, address: u64, size: u64) -> bool
    ensures { result ≡ overlaps address size (get_or w.now (at + layout.key) 0) (size_at w.now at) }
{
    images::overlap(
        address,
        size,
        words::get_in(w, at, layout::KEY),
        size_at(w, at),
    )
}

// Whether the DPC at place `at` has a byte of the range.
#[tactic(auto, unfolding(crate::specs::Release::dpc_stands))]
pub fn dpc_overlaps(w: &[u64], at: usize, address: u64, size: u64) -> bool
    ensures { result ≡ dpc_stands w.now at address size }
{
    images::overlap(
        address,
        size,
        words::get_in(w, at, layout::ADDRESS),
        dpc_size_at(w, at),
    )
}

// Whether there is such a DPC and its work is queued, running or returning.
#[tactic(auto, unfolding(crate::specs::Record::busy))]
pub fn is_busy(w: &[u64], address: u64) -> bool
    ensures { result ≡ busy w.now address }
{
    objects::find_dpc(w, address).is_some_and(|at| words::get_in(w, at, layout::PHASE) != 0)
}
