// Records chained by a next index, 0 at the end: the ready queues, the waiters and the DPC queue are such chains.
#![tactic(auto)]

ghost use Rattle.std.specs.Prelude.{◌≡◌, get_or};
ghost use Rattle.chains.specs.Chain.{link_at, first_of, next_of, members_of, pushed, unlinked, find_before, removed};

pub mod ready;

// The words that name the first and the last record, 0 where there is none; record n's link stands at link + stride * n.
#[derive(Clone, Copy)]
pub struct Chain {
    pub first: u32,
    pub last: u32,
    pub link: u32,
    pub stride: u32,
}

// No walk along a chain passes more records than this.
pub const MOST: usize = 4096;

// The numbers of the records of a chain, in its order; no more than 4096 come, so that a chain that runs in a ring ends too.
#[derive(Clone, Drop)]
pub struct Members<'a> {
    w: &'a [u64],
    chain: Chain,
    at: u64,
    left: usize,
}

impl<'a> Iterator for Members<'a> {
    ghost use Rattle.std.specs.Iterator.{YieldsFirst, item_count};
    ghost use Rattle.chains.specs.Members.{members_left};

    type Item = u64;

    ghost next_gives = { YieldsFirst members_left };

    ghost remaining = { item_count members_left };

    fn next(&mut self) -> Option<u64> {
        if self.at == 0 {
            return None;
        }
        self.left = self.left.checked_sub(1)?;
        let n = self.at;
        self.at = self.chain.after(self.w, n);
        Some(n)
    }
}

impl Chain {
    ghost use Rattle.chains.specs.Members.{members_left};

    // Where the number of the record after `before` stands; after 0 comes the first. No chain has a record past 4096.
    #[tactic(auto, unfolding(crate::specs::Chain::link_at), using(crate::proofs::ChainLaws::span))]
    pub fn link_at(self, before: u64) -> usize
        ensures { result ≡ link_at self before }
    {
        if before == 0 {
            return self.first as usize;
        }
        if before <= 4096 {
            return (self.link as usize) + (self.stride as usize) * (before as usize);
        }
        self.first as usize
    }

    // The first record, 0 where there is none. No Option, here and in `after`: 0 ends a chain in the words, and the walks of the definitions
    // ask for it.
    #[tactic(auto, unfolding(crate::specs::Chain::first_of))]
    pub fn front(self, w: &[u64]) -> u64
        ensures { result ≡ first_of w.now self }
    {
        words::get(w, self.first as usize)
    }

    // The record after `n`, 0 at the end; after 0 comes the first.
    #[tactic(auto, unfolding(crate::specs::Chain::next_of))]
    pub fn after(self, w: &[u64], n: u64) -> u64
        ensures { result ≡ next_of w.now self n }
    {
        words::get(w, self.link_at(n))
    }

    #[tactic(auto, unfolding(crate::specs::Chain::members_of))]
    pub fn members(self, w: &[u64]) -> Members<'_>
        ensures { members_left result ≡ members_of w.now self }
    {
        Members {
            w,
            chain: self,
            at: self.front(w),
            left: MOST,
        }
    }

    // Record `n`, in no chain, made the last.
    #[tactic(auto, unfolding(crate::specs::Chain::pushed))]
    pub fn push(self, w: &mut [u64], n: u64)
        ensures { w.new ≡ pushed w.old self n }
    {
        let last = words::get(w, self.last as usize);
        words::put(w, self.link_at(n), 0);
        words::put(w, self.link_at(last), n);
        words::put(w, self.last as usize, n);
    }

    // Record `n`, which comes after `before`, taken out.
    #[tactic(auto, unfolding(crate::specs::Chain::unlinked))]
    pub fn unlink(self, w: &mut [u64], before: u64, n: u64)
        ensures { w.new ≡ unlinked w.old self before n }
    {
        let after = self.after(w, n);
        words::put(w, self.link_at(before), after);
        if after == 0 {
            words::put(w, self.last as usize, before);
        }
    }

    // The record before `n`, or 0 where `n` is the first: no `Option`, since 0 is a place in the chain, that before the first. Not by `members`,
    // since where `n` does not stand in the chain the search goes round by the first.
    pub fn find_before(self, w: &[u64], n: u64) -> u64
        ensures { result ≡ find_before w.now self n }
    {
        let mut before: u64 = 0;
        let mut at = self.front(w);
        for _ in 0..MOST {
            if at == n {
                return before;
            }
            before = at;
            at = self.after(w, at);
        }
        before
    }

    // Record `n`, which stands in the chain, taken out.
    #[tactic(auto, unfolding(crate::specs::Chain::removed))]
    pub fn remove(self, w: &mut [u64], n: u64)
        ensures { w.new ≡ removed w.old self n }
    {
        let before = self.find_before(w, n);
        self.unlink(w, before, n);
    }
}
