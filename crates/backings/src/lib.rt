// The backing of a timer or a DPC, from the numbers that a caller of the library gives.
#![tactic(auto)]

ghost use Rattle.std.specs.Prelude.{◌≡◌};
ghost use Rattle.backings.specs.Lent.{lent_backing};

use images::TimerBacking;

// With an architecture or a kind that is neither 0 nor 1, memory of no bytes, where nothing can stand.
pub fn lent_backing(architecture: u64, kind: u64, base: u64, size: u64, mapped: u64) -> TimerBacking
    ensures { result ≡ lent_backing architecture «kind» «base» «size» «mapped» }
{
    if 1 < architecture {
        return TimerBacking::Image { base: 0, size: 0 };
    }
    if 1 < kind {
        return TimerBacking::Image { base: 0, size: 0 };
    }
    images::backing_of(kind, base, size, mapped)
}
