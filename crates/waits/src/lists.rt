// Lists of objects. The caller's list and the places of a thread's record are such lists; the latter stand in the words themselves.
ghost use Rattle.std.specs.Prelude.{◌≡◌, ◌-◌, ◌≤◌, drop};
ghost use Rattle.threads.specs.Thread.{count_of, places_at};
ghost use Rattle.waits.specs.Lists.{kind_in, key_in, has_pair, duplicate_in, bad_kind_in, unknown_in, owned_in, every_in, first_in, met_in, index_in, taken_list, taken_own, takes_list, takes_own};

use super::object;

// A list of objects: `n` pairs of a kind and a key that stand in `src` from `at` on.
#[derive(Clone, Copy)]
pub struct Pairs<'a> {
    pub src: &'a [u64],
    pub at: usize,
    pub n: usize,
    pub ghost few: { n ≤ 64 },
}

impl<'a> Pairs<'a> {
    #[tactic(auto, unfolding(crate::specs::Lists::kind_in))]
    pub fn kind(&self, i: usize) -> u64
        requires { i ≤ 64 }
        ensures { result ≡ kind_in self.now.src.now self.now.at i }
    {
        words::get_in(self.src, self.at, 2 * i)
    }

    #[tactic(auto, unfolding(crate::specs::Lists::key_in))]
    pub fn key(&self, i: usize) -> u64
        requires { i ≤ 64 }
        ensures { result ≡ key_in self.now.src.now self.now.at i }
    {
        words::get_in(self.src, self.at, 2 * i + 1)
    }

    // Whether one of the pairs from the `from`th on is this one.
    pub fn has_from(&self, from: usize, kind: u64, key: u64) -> bool
        ensures { result ≡ has_pair (self.now.n - from) self.now.src.now self.now.at from kind key }
    {
        (from..self.n).any(|i| self.key(i) == key && self.kind(i) == kind)
    }

    // Whether one of the pairs is this one.
    pub fn has(&self, kind: u64, key: u64) -> bool
        ensures { result ≡ has_pair self.now.n self.now.src.now self.now.at 0 kind key }
    {
        self.has_from(0, kind, key)
    }

    // Whether two of the pairs are the same.
    pub fn has_duplicate(&self) -> bool
        ensures { result ≡ duplicate_in self.now.n self.now.src.now self.now.at 0 }
    {
        (0..self.n).any(|i| self.has_from(i + 1, self.kind(i), self.key(i)))
    }

    // Whether one of the pairs has a kind over 3.
    pub fn has_bad_kind(&self) -> bool
        ensures { result ≡ bad_kind_in self.now.n self.now.src.now self.now.at 0 }
    {
        (0..self.n).any(|i| 3 < self.kind(i))
    }

    // Whether one of the pairs names no object.
    pub fn has_unknown(&self, w: &[u64]) -> bool
        ensures { result ≡ unknown_in self.now.n w.now self.now.src.now self.now.at 0 }
    {
        (0..self.n).any(|i| !object::is_valid(w, self.kind(i), self.key(i)))
    }

    // Whether one of the pairs is a mutex that the thread owns.
    pub fn has_owned(&self, w: &[u64], id: u64) -> bool
        ensures { result ≡ owned_in self.now.n w.now id self.now.src.now self.now.at 0 }
    {
        (0..self.n).any(|i| object::is_owned_by(w, id, self.kind(i), self.key(i)))
    }

    // Whether every object is available.
    fn every(&self, w: &[u64]) -> bool
        ensures { result ≡ every_in self.now.n w.now self.now.src.now self.now.at 0 }
    {
        (0..self.n).all(|i| object::is_available(w, self.kind(i), self.key(i)))
    }

    // The place of the first available object, or `n` where there is none, as the definition has it.
    fn first(&self, w: &[u64]) -> usize
        ensures { result ≡ first_in self.now.n w.now self.now.src.now self.now.at 0 }
    {
        (0..self.n)
            .find(|&i| object::is_available(w, self.kind(i), self.key(i)))
            .unwrap_or(self.n)
    }

    // Whether a wait for any (`all`, a word of the record, is 0) or all of the objects can be granted.
    #[tactic(auto, unfolding(crate::specs::Lists::met_in))]
    pub fn is_met(&self, w: &[u64], all: u64) -> bool
        ensures { result ≡ met_in w.now self.now.src.now self.now.at self.now.n all }
    {
        if all == 0 {
            return self.first(w) < self.n;
        }
        self.every(w)
    }

    // What a wait that is granted answers: the place of the first available, or 0 for all.
    #[tactic(auto, unfolding(crate::specs::Lists::index_in))]
    pub fn index(&self, w: &[u64], all: u64) -> u64
        ensures { result ≡ index_in w.now self.now.src.now self.now.at self.now.n all }
    {
        if all == 0 {
            return self.first(w) as u64;
        }
        0
    }

    // Every object taken by the thread, of a list that stands apart from the words.
    fn take_each(&self, w: &mut [u64], id: u64)
        ensures { w.new ≡ taken_list self.now.n w.old id (drop self.now.at self.now.src.now) 0 }
    {
        for i in 0..self.n {
            object::take(w, id, self.kind(i), self.key(i));
        }
    }

    // What a wait for the list is granted by, taken by the thread.
    pub fn take(&self, w: &mut [u64], id: u64, all: u64)
        ensures { w.new ≡ takes_list w.old id (drop self.now.at self.now.src.now) self.now.n all }
    {
        if all == 0 {
            let i = self.first(w);
            object::take(w, id, self.kind(i), self.key(i));
            return;
        }
        self.take_each(w, id);
    }
}

// What the thread waits for, a list that stands in the words.
#[tactic(auto, using(crate::proofs::ListLaws::count_most))]
pub fn places(w: &[u64], id: u64) -> Pairs<'_>
    ensures src { result.src.now ≡ w.now }
    ensures at { result.at ≡ places_at id }
    ensures n { result.n ≡ count_of w.now id }
{
    Pairs {
        src: w,
        at: threads::places_at(id),
        n: threads::count_of(w, id),
    }
}

// Every object of a list that stands in the words taken by the thread. No method: a loan of the words cannot last while they
// change, so each pair is lent anew.
fn take_own(w: &mut [u64], id: u64, at: usize, n: usize)
    requires { n ≤ 64 }
    ensures { w.new ≡ taken_own n w.old id at 0 }
{
    for i in 0..n {
        let x = Pairs { src: w, at, n };
        let kind = x.kind(i);
        let key = x.key(i);
        object::take(w, id, kind, key);
    }
}

// What a wait for the list is granted by, taken by the thread, the list standing in the words.
pub fn takes_own(w: &mut [u64], id: u64, at: usize, n: usize, all: u64)
    requires { n ≤ 64 }
    ensures { w.new ≡ takes_own w.old id at n all }
{
    if all == 0 {
        let x = Pairs { src: w, at, n };
        let i = x.first(w);
        let kind = x.kind(i);
        let key = x.key(i);
        object::take(w, id, kind, key);
        return;
    }
    take_own(w, id, at, n);
}
