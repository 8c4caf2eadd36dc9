// Which timers are due.
ghost use Rattle.std.specs.Prelude.{◌≡◌, ◌≤◌, length, take};
ghost use Rattle.objects.specs.Objects.{object_count};
ghost use Rattle.expiry.specs.Due.{is_due, any_due, due_list, noted, noted_to};

use words::layout;

// Whether the record at place `at` is of a timer that is inserted and due at `time`.
#[tactic(auto, unfolding(crate::specs::Due::is_due))]
pub fn is_due(w: &[u64], at: usize, time: u64) -> bool
    ensures { result ≡ is_due w.now at time }
{
    words::get_in(w, at, layout::KIND) == objects::TIMER
        && words::get_in(w, at, layout::INSERTED) != 0
        && words::get_in(w, at, layout::DUE) <= time
}

// Proved by `any_from_walk`, as every walk of a table with a test.
pub fn any_due(w: &[u64], time: u64) -> bool
    ensures { result ≡ any_due w.now time }
{
    let base = objects::objects_base(w);
    (0..objects::count(w)).any(|i| is_due(w, layout::entry_at(base, i), time))
}

// The place in the table of a due timer at place `k` of the list. Answers the list's next place.
#[tactic(auto, unfolding(crate::specs::Due::noted, crate::specs::Due::noted_to))]
fn note(w: &[u64], base: usize, i: u64, time: u64, list: &mut [u64], k: usize) -> usize
    requires { k ≤ 4096 }
    ensures { (result ≡ noted_to w.now base i time k) × (list.new ≡ noted w.now base i time list.old k) }
{
    if is_due(w, layout::entry_at(base, i), time) {
        words::put(list, k, i);
        return k + 1;
    }
    k
}

// The due timers in the order of the table, at the start of the list. Answers how many.
pub fn collect(w: &[u64], time: u64, list: &mut [u64]) -> usize
    requires { object_count w.now ≤ length list.old }
    ensures { (result ≡ length (due_list w.now time)) × (take result list.new ≡ due_list w.now time) × (result ≤ length list.new) }
{
    let base = objects::objects_base(w);
    let mut k: usize = 0;
    for i in 0..objects::count(w) {
        k = note(w, base, i, time, list, k);
    }
    k
}
