// When a timer is due again.
ghost use Rattle.std.specs.Prelude.{◌≡◌, ◌*◌, ◌<◌};
ghost use Rattle.wide.specs.Checked.{checked};
ghost use Rattle.expiry.specs.Next.{next_due, next_by, passes, later_due};

// With `step` ticks between one due and the next: the first of them past `time`.
fn next_by(due: u64, time: u64, step: u64) -> Option<u64>
    requires { 0 < step }
    ensures { result ≡ checked (next_by due time step) }
{
    if time < due {
        return due.checked_add(step);
    }
    (time - (time - due) % step).checked_add(step)
}

// A timer of period 0 keeps its due.
pub fn next_due(due: u64, time: u64, period: u64) -> Option<u64>
    ensures { result ≡ checked (next_due due time period) }
{
    if period == 0 {
        return Some(due);
    }
    next_by(due, time, period.checked_mul(10_000)?)
}

// Whether the next due passes 2^64 - 1.
pub fn passes(due: u64, time: u64, period: u64) -> bool
    ensures { result ≡ passes due time period }
{
    next_due(due, time, period).is_none()
}

// The next due, or the present one where the next passes.
pub fn later_due(due: u64, time: u64, period: u64) -> u64
    ensures { result ≡ later_due due time period }
{
    next_due(due, time, period).unwrap_or(due)
}
