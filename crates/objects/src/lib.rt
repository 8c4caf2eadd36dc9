// Mutexes, events and timers in one table that rises by key; DPCs in another, that rises by address.
#![tactic(auto)]

ghost use Rattle.std.specs.Prelude.{◌≡◌};
ghost use Rattle.objects.specs.Found.{nonzero, found};
ghost use Rattle.objects.specs.Objects.{objects_base, dpcs_base, object_count, object_found, dpc_found, place_of, collides, full, put_object, inserted, entered};

use words::layout;

// The kinds, as a wait list has them: numbers, since lent words hold them, and the definitions speak of any word.
pub const MUTEX: u64 = 0;

pub const EVENT: u64 = 1;

pub const TIMER: u64 = 2;

pub const THREAD: u64 = 3;

// What a mutex or an event has beside its key, as the words of its record hold it: flags are 0 or 1, and `owner` is 0 for none.
#[derive(Clone, Copy, Debug, PartialEq, Eq)]
pub struct Object {
    pub kind: u64,
    pub manual: u64,
    pub signaled: u64,
    pub owner: u64,
}

pub fn objects_base(w: &[u64]) -> usize
    ensures { result ≡ objects_base w.now }
{
    layout::objects_at(words::get(w, layout::THREAD_LIMIT))
}

pub fn dpcs_base(w: &[u64]) -> usize
    ensures { result ≡ dpcs_base w.now }
{
    layout::entry_at(objects_base(w), words::get(w, layout::OBJECT_LIMIT))
}

// How many objects there are, at most 4096.
pub fn count(w: &[u64]) -> u64
    ensures { result ≡ object_count w.now }
{
    words::get(w, layout::OBJECTS).min(4096)
}

// Where the record with the key stands, of `n` records from `base` on.
#[tactic(auto, unfolding(crate::specs::Found::found))]
fn found_at(w: &[u64], base: usize, n: u64, key: u64) -> Option<usize>
    ensures { result ≡ found w.now base n key }
{
    let i = tables::find(w, base, n, key);
    if n <= i || tables::key_at(w, base, i) != key {
        return None;
    }
    Some(layout::entry_at(base, i))
}

// Where the object with the key stands, of any kind.
pub fn find_object(w: &[u64], key: u64) -> Option<usize>
    ensures { result ≡ nonzero (object_found w.now key) }
{
    found_at(w, objects_base(w), words::get(w, layout::OBJECTS), key)
}

pub fn find_dpc(w: &[u64], address: u64) -> Option<usize>
    ensures { result ≡ nonzero (dpc_found w.now address) }
{
    found_at(w, dpcs_base(w), words::get(w, layout::DPCS), address)
}

// Where the object of this kind and key stands.
#[tactic(auto, unfolding(crate::specs::Objects::place_of))]
pub fn place_of(w: &[u64], kind: u64, key: u64) -> Option<usize>
    ensures { result ≡ nonzero (place_of w.now kind key) }
{
    find_object(w, key).filter(|at| words::get_in(w, *at, layout::KIND) == kind)
}

// Whether an object of another kind has the key, or a DPC.
#[tactic(auto, unfolding(crate::specs::Objects::collides))]
pub fn collision(w: &[u64], kind: u64, key: u64) -> bool
    ensures { result ≡ collides w.now kind key }
{
    find_object(w, key).is_some_and(|at| words::get_in(w, at, layout::KIND) != kind)
        || find_dpc(w, key).is_some()
}

// Whether the key is new and there is no room for a new object.
#[tactic(auto, unfolding(crate::specs::Objects::full))]
pub fn is_full(w: &[u64], key: u64) -> bool
    ensures { result ≡ full w.now key }
{
    find_object(w, key).is_none()
        && words::get(w, layout::OBJECT_LIMIT) <= words::get(w, layout::OBJECTS)
}

// The record at place `at` written whole.
fn put_object(w: &mut [u64], at: usize, key: u64, o: Object)
    ensures { w.new ≡ put_object w.old at key o }
{
    words::put(w, at, key);
    words::put_in(w, at, layout::KIND, o.kind);
    words::put_in(w, at, layout::MANUAL, o.manual);
    words::put_in(w, at, layout::SIGNALED, o.signaled);
    words::put_in(w, at, layout::OWNER, o.owner);
}

// A new object where the keys keep rising, if the table can have one more.
fn insert(w: &mut [u64], key: u64, o: Object)
    ensures { w.new ≡ inserted w.old key o }
{
    let n = words::get(w, layout::OBJECTS);
    if 4096 <= n {
        return;
    }
    let base = objects_base(w);
    let i = tables::find(w, base, n, key);
    tables::open_gap(w, base, n, i);
    put_object(w, layout::entry_at(base, i), key, o);
    words::put(w, layout::OBJECTS, n + 1);
}

// The object with the key as given: in its place where it is known, else new. `dpc_table::enter` is alike, but its record is another and its
// table's numbers have links to follow.
#[tactic(auto, unfolding(crate::specs::Objects::entered))]
pub fn enter(w: &mut [u64], key: u64, o: Object)
    ensures { w.new ≡ entered w.old key o }
{
    match find_object(w, key) {
        Some(at) => put_object(w, at, key, o),
        None => insert(w, key, o),
    }
}
