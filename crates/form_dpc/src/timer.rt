// The timers in form: each record's numbers, and its DPC.
ghost use Rattle.std.specs.Prelude.{◌≡◌};
ghost use Rattle.form_dpc.specs.Timer.{timer_flags, timer_times, timer_placed, timer_numbers, serves_it, dpc_serves, has_dpc};

use words::layout;

// Its four flags.
#[tactic(auto, unfolding(crate::specs::Timer::timer_flags))]
fn flags_pass(w: &[u64], at: usize) -> bool
    ensures { result ≡ timer_flags w.now at }
{
    words::get_in(w, at, layout::MANUAL) <= 1
        && words::get_in(w, at, layout::SIGNALED) <= 1
        && words::get_in(w, at, layout::INSERTED) <= 1
        && words::get_in(w, at, layout::ABSOLUTE) <= 1
}

// Its period is no negative i32, and its initialization has been.
#[tactic(auto, unfolding(crate::specs::Timer::timer_times))]
fn times_pass(w: &[u64], at: usize) -> bool
    ensures { result ≡ timer_times w.now at }
{
    let n = words::get_in(w, at, layout::INITIALIZATION);
    words::get_in(w, at, layout::PERIOD) <= 0x7fff_ffff
        && n != 0
        && n <= words::get(w, layout::TIMER_INITIALIZATIONS)
}

#[tactic(auto, unfolding(crate::specs::Timer::timer_placed))]
fn location_passes(w: &[u64], at: usize) -> bool
    ensures { result ≡ timer_placed w.now at }
{
    let a = images::architecture_of(words::get_in(w, at, layout::TIMER_ARCHITECTURE));
    super::location_passes(w, at, layout::TIMER_ARCHITECTURE, images::timer_size(a))
}

// Document 01: stored numbers pass their checks, of a timer.
#[tactic(auto, unfolding(crate::specs::Timer::timer_numbers))]
pub fn numbers_pass(w: &[u64], at: usize) -> bool
    ensures { result ≡ timer_numbers w.now at }
{
    flags_pass(w, at) && times_pass(w, at) && location_passes(w, at)
}

// Whether the DPC exists and says that the timer with the key has it.
#[tactic(auto, unfolding(crate::specs::Timer::serves_it))]
fn serves_it(w: &[u64], dpc: u64, key: u64) -> bool
    ensures { result ≡ serves_it w.now dpc key }
{
    objects::find_dpc(w, dpc).is_some_and(|place| words::get_in(w, place, layout::NAMED_BY) == key)
}

// Document 01: an inserted timer's DPC, if any, exists and serves no other. A DPC names one timer, so that two timers cannot
// both have it.
#[tactic(auto, unfolding(crate::specs::Timer::dpc_serves))]
pub fn dpc_serves(w: &[u64], at: usize) -> bool
    ensures { result ≡ dpc_serves w.now at }
{
    if words::get_in(w, at, layout::KIND) != objects::TIMER
        || words::get_in(w, at, layout::INSERTED) == 0
    {
        return true;
    }
    let dpc = words::get_in(w, at, layout::TIMER_DPC);
    dpc == 0 || serves_it(w, dpc, words::get(w, at))
}

// Whether the timer at place `at` is inserted and has the DPC.
#[tactic(auto, unfolding(crate::specs::Timer::has_dpc))]
pub fn has_dpc(w: &[u64], at: usize, dpc: u64) -> bool
    ensures { result ≡ has_dpc w.now at dpc }
{
    words::get_in(w, at, layout::INSERTED) != 0 && words::get_in(w, at, layout::TIMER_DPC) == dpc
}
