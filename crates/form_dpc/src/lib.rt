// The timers and the DPCs in form: what `form` tests of them, clause by clause of document 01's sentence.
#![tactic(auto)]

ghost use Rattle.std.specs.Prelude.{◌≡◌, ◌≤◌, ◌-◌};
ghost use Rattle.form_dpc.specs.Place.{key_rises, past_in, mapped_passes, located};

pub mod counts;
pub mod dpc_records;
pub mod queue;
pub mod timer;

// Document 01: no key stands twice, for keys rise along each table.
#[tactic(auto, unfolding(crate::specs::Place::key_rises))]
pub fn key_rises(w: &[u64], base: usize, i: u64) -> bool
    ensures { result ≡ key_rises w.now base i }
{
    i == 0 || tables::key_at(w, base, i - 1) < tables::key_at(w, base, i)
}

// The first record of a table of `n`, from record `from` on, whose key is not below `key`; the end where there is none.
fn past(w: &[u64], base: usize, n: u64, from: u64, key: u64) -> u64
    ensures { result ≡ past_in (n - from) w.now base from key }
{
    (from..n)
        .find(|i| key <= tables::key_at(w, base, *i))
        .unwrap_or(from.max(n))
}

// Words that say nothing hold 0: the mapped bytes of an image.
#[tactic(auto, unfolding(crate::specs::Place::mapped_passes))]
fn mapped_passes(kind: u64, mapped: u64) -> bool
    ensures { result ≡ mapped_passes kind mapped }
{
    kind != 0 || mapped == 0
}

// Whether what stands at place `at` may stand in the guest's memory as its words say, with `size` bytes. The five words from
// `from` on are its architecture and its backing with the base, the size and the mapped bytes.
#[tactic(auto, unfolding(crate::specs::Place::located))]
fn location_passes(w: &[u64], at: usize, from: usize, size: u64) -> bool
    requires { from ≤ 12 }
    ensures { result ≡ located w.now at from size }
{
    let n = words::get_in(w, at, from);
    let kind = words::get_in(w, at, from + 1);
    let base = words::get_in(w, at, from + 2);
    let length = words::get_in(w, at, from + 3);
    let mapped = words::get_in(w, at, from + 4);
    let b = images::backing_of(kind, base, length, mapped);
    n <= 1
        && kind <= 1
        && mapped_passes(kind, mapped)
        && images::is_located(words::get(w, at), size, images::architecture_of(n), b)
}
