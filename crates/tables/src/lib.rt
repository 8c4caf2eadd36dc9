// Tables of records of 32 words whose first words, the keys, rise: search by halves, room made for a record, and marked records taken out.
// A table is where it starts and how many records it has, two words of the header that change apart.
#![tactic(auto)]

ghost use Rattle.std.specs.Prelude.{◌≡◌, ◌+◌, ◌≤◌, ◌<◌};
ghost use Rattle.tables.specs.Compact.{is_marked, copied, moved, Tells, retained, retained_to, compacted, compacted_to};
ghost use Rattle.tables.specs.Table.{key_at, narrowed, position, raised, gap_opened};

use words::layout;

// The part of a table that a search has left: `size` records from `from` on.
#[derive(Clone, Copy)]
pub struct Part {
    pub from: u64,
    pub size: u64,
}

// No table has more records than this.
pub const MOST: u64 = 8191;

#[tactic(auto, unfolding(crate::specs::Table::key_at))]
pub fn key_at(w: &[u64], base: usize, i: u64) -> u64
    ensures { result ≡ key_at w.now base i }
{
    words::get(w, layout::entry_at(base, i))
}

// A search of so many records is over after this many steps.
const STEPS: usize = 13;

// One step of a search: the half in which the first key that is not below `key` would stand.
#[tactic(auto, unfolding(crate::specs::Table::narrowed))]
fn narrow(w: &[u64], base: usize, key: u64, p: Part) -> Part
    requires { (0 < p.size) × (p.from + p.size ≤ 8191) }
    ensures { result ≡ narrowed w.now base key p }
{
    let half = p.size / 2;
    let middle = p.from + half;
    if key_at(w, base, middle) < key {
        return Part {
            from: middle + 1,
            size: p.size - (half + 1),
        };
    }
    Part {
        from: p.from,
        size: half,
    }
}

// How many of the `n` keys are below `key`, where the keys rise: the place of `key`. By hand, since the library searches slices of records,
// and says nothing where the keys do not rise; the place is defined for all words.
pub fn find(w: &[u64], base: usize, n: u64, key: u64) -> u64
    ensures { result ≡ position w.now base n key }
{
    if MOST < n {
        return n;
    }
    let mut p = Part { from: 0, size: n };
    for _ in 0..STEPS {
        if p.size == 0 {
            return p.from;
        }
        p = narrow(w, base, key, p);
    }
    p.from
}

// The `m` words before place `end` moved up by a record. A word that would come to stand past the end of the words is dropped.
fn raise(w: &mut [u64], end: usize, m: usize)
    requires { (m ≤ end) × (end ≤ 2000000) }
    ensures { w.new ≡ raised m w.old end }
{
    let start = end - m;
    let stop = end.min(w.len().saturating_sub(layout::RECORD_SIZE));
    if start < stop {
        w.copy_within(start..stop, start + layout::RECORD_SIZE);
    }
}

// Records `i` to `n - 1` moved up by one.
pub fn open_gap(w: &mut [u64], base: usize, n: u64, i: u64)
    ensures { w.new ≡ gap_opened w.old base n i }
{
    if 1_000_000 < base {
        return;
    }
    if MOST < n {
        return;
    }
    if n < i {
        return;
    }
    raise(w, layout::entry_at(base, n), 32 * ((n - i) as usize));
}

// Whether word `word` of the record at place `at` is the mark.
#[tactic(auto, unfolding(crate::specs::Compact::is_marked))]
fn is_marked(w: &[u64], at: usize, word: usize, mark: u64) -> bool
    ensures { result ≡ is_marked w.now at word mark }
{
    words::get_in(w, at, word) == mark
}

// The record at place `from` copied to place `to`, the first word first. The library's copy of a range differs where `to` stands within
// the record at `from`, and where the words end within it.
fn copy(w: &mut [u64], from: usize, to: usize)
    ensures { w.new ≡ copied w.old from to }
{
    for k in 0..layout::RECORD_SIZE {
        let word = words::get_in(w, from, k);
        words::put_in(w, to, k, word);
    }
}

// Record `i` as record `j`.
#[tactic(auto, unfolding(crate::specs::Compact::moved))]
pub fn move_down(w: &mut [u64], base: usize, i: u64, j: u64)
    ensures { w.new ≡ moved w.old base i j }
{
    if i == j {
        return;
    }
    copy(w, layout::entry_at(base, i), layout::entry_at(base, j));
}

// Of the `n` records, those for which `goes` answers yes at their places taken out; the others keep their order. Answers how many stay.
pub fn retain<F: Fn(&[u64], usize) -> bool>(w: &mut [u64], base: usize, n: u64, goes: F) -> u64
    requires { F.IsAlwaysCallable goes }
    ensures { (test : _) → Tells (F.post goes) test → (result ≡ retained_to test w.old base n) × (w.new ≡ retained test w.old base n) }
{
    if MOST < n {
        return n;
    }
    let mut j: u64 = 0;
    for i in 0..n {
        if !goes(w, layout::entry_at(base, i)) {
            move_down(w, base, i, j);
            j += 1;
        }
    }
    j
}

// Of the `n` records, those whose word `word` is the mark taken out; the others keep their order. Answers how many stay.
pub fn compact(w: &mut [u64], base: usize, n: u64, word: usize, mark: u64) -> u64
    ensures { (result ≡ compacted_to w.old base n word mark) × (w.new ≡ compacted w.old base n word mark) }
{
    retain(w, base, n, |w, at| is_marked(w, at, word, mark))
}
