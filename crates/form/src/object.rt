// The objects in form: each record's numbers, their order, who owns the mutexes, and the timers' DPCs.
ghost use Rattle.std.specs.Prelude.{◌≡◌};
ghost use Rattle.form.specs.Object.{mutex_passes, event_passes, object_numbers, owner_lives, object_passes, objects_pass};

use form_dpc::timer;
use words::layout;

// Words that say nothing hold 0: the two flags of a mutex.
#[tactic(auto, unfolding(crate::specs::Object::mutex_passes))]
fn mutex_passes(w: &[u64], at: usize) -> bool
    ensures { result ≡ mutex_passes w.now at }
{
    words::get_in(w, at, layout::MANUAL) == 0 && words::get_in(w, at, layout::SIGNALED) == 0
}

// An event's two flags.
#[tactic(auto, unfolding(crate::specs::Object::event_passes))]
fn event_passes(w: &[u64], at: usize) -> bool
    ensures { result ≡ event_passes w.now at }
{
    words::get_in(w, at, layout::MANUAL) <= 1 && words::get_in(w, at, layout::SIGNALED) <= 1
}

// Document 01: stored numbers pass their checks, of an object. Its owner is another clause's.
#[tactic(auto, unfolding(crate::specs::Object::object_numbers))]
fn numbers_pass(w: &[u64], base: usize, i: u64) -> bool
    ensures { result ≡ object_numbers w.now base i }
{
    let at = layout::entry_at(base, i);
    if tables::key_at(w, base, i) == 0 {
        return false;
    }
    match words::get_in(w, at, layout::KIND) {
        objects::MUTEX => mutex_passes(w, at),
        objects::EVENT => event_passes(w, at),
        objects::TIMER => timer::numbers_pass(w, at),
        _ => false,
    }
}

// Document 01: owners are live. Words that say nothing hold 0: the owner of what is no mutex.
#[tactic(auto, unfolding(crate::specs::Object::owner_lives))]
fn owner_lives(w: &[u64], base: usize, i: u64) -> bool
    ensures { result ≡ owner_lives w.now base i }
{
    let at = layout::entry_at(base, i);
    let kind = words::get_in(w, at, layout::KIND);
    let owner = words::get_in(w, at, layout::OWNER);
    if kind != objects::MUTEX {
        return owner == 0;
    }
    owner == 0 || form_threads::is_live(w, owner)
}

#[tactic(auto, unfolding(crate::specs::Object::object_passes))]
fn object_passes(w: &[u64], base: usize, i: u64) -> bool
    ensures { result ≡ object_passes w.now base i }
{
    numbers_pass(w, base, i)
        && form_dpc::key_rises(w, base, i)
        && owner_lives(w, base, i)
        && timer::dpc_serves(w, layout::entry_at(base, i))
}

// Every object passes.
pub fn objects_pass(w: &[u64]) -> bool
    ensures { result ≡ objects_pass w.now }
{
    let base = objects::objects_base(w);
    (0..objects::count(w)).all(|i| object_passes(w, base, i))
}
