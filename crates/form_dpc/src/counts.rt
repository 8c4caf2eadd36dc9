// The counts of DPC work in form: each is the sum that document 01 says. How many DPCs are queued, active (running or returning) and
// returning is counted once, by `dpc_records::dpcs_pass`.
ghost use Rattle.std.specs.Prelude.{◌≡◌, ◌+◌, eqb};
ghost use Rattle.form_dpc.specs.Counts.{sum_holds_as, active_named_as, starts_pass_as, returns_pass_as};

use super::dpc_records;
use words::layout;

// Whether the two parts make the total; their sum may be past 2^64 - 1.
fn is_sum(total: u64, part: u64, rest: u64) -> bool
    ensures { result ≡ eqb total (part + rest) }
{
    part.checked_add(rest) == Some(total)
}

// Document 01: demand 3's sum holds: what was accepted is removed, restored, queued or active.
pub fn sum_holds(w: &[u64], queued: u64, active: u64) -> bool
    ensures { result ≡ sum_holds_as w.now queued active }
{
    let accepted = words::get(w, layout::ACCEPTED);
    let Some(kept) = accepted.checked_sub(words::get(w, layout::REMOVED)) else {
        return false;
    };
    let Some(left) = kept.checked_sub(words::get(w, layout::RESTORED)) else {
        return false;
    };
    is_sum(left, queued, active)
}

// The active word is 0 where no work is active, else the address of a DPC whose work is.
fn active_passes(w: &[u64], active: u64) -> bool
    ensures { result ≡ active_named_as w.now active }
{
    let address = words::get(w, layout::ACTIVE);
    if address == 0 {
        return active == 0;
    }
    objects::find_dpc(w, address).is_some_and(|at| dpc_records::RUNNING
        <= words::get_in(w, at, layout::PHASE))
}

// Document 01: starts less restorations is the active work, at most one.
pub fn starts_pass(w: &[u64], active: u64) -> bool
    ensures { result ≡ starts_pass_as w.now active }
{
    active <= 1
        && is_sum(
            words::get(w, layout::STARTED),
            words::get(w, layout::RESTORED),
            active,
        )
        && active_passes(w, active)
}

// Document 01: returns less restorations is the returning work.
pub fn returns_pass(w: &[u64], returning: u64) -> bool
    ensures { result ≡ returns_pass_as w.now returning }
{
    let returned = words::get(w, layout::RETURNED);
    let restored = words::get(w, layout::RESTORED);
    is_sum(returned, restored, returning)
}
