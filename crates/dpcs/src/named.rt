// Which DPC an inserted timer has. A timer set with no DPC has the one at address 0.
ghost use Rattle.std.specs.Prelude.{◌≡◌};
ghost use Rattle.dpcs.specs.Named.{is_bare, any_bare, is_named};

use words::layout;

// Whether the object at place `at` is an inserted timer with no DPC.
#[tactic(auto, unfolding(crate::specs::Named::is_bare))]
fn is_bare(w: &[u64], at: usize) -> bool
    ensures { result ≡ is_bare w.now at }
{
    words::get_in(w, at, layout::KIND) == objects::TIMER
        && words::get_in(w, at, layout::INSERTED) != 0
        && words::get_in(w, at, layout::TIMER_DPC) == 0
}

// Proved by `any_from_walk`, as every walk of a table with a test.
fn any_bare(w: &[u64]) -> bool
    ensures { result ≡ any_bare w.now }
{
    let base = objects::objects_base(w);
    (0..objects::count(w)).any(|i| is_bare(w, layout::entry_at(base, i)))
}

// Whether an inserted timer has the DPC at the address.
#[tactic(auto, unfolding(crate::specs::Named::is_named))]
pub fn is_named(w: &[u64], address: u64) -> bool
    ensures { result ≡ is_named w.now address }
{
    if address == 0 {
        return any_bare(w);
    }
    objects::find_dpc(w, address).is_some_and(|at| words::get_in(w, at, layout::NAMED_BY) != 0)
}
