// The lent words: total reads and writes, the bits of the ready word, and where things stand (`layout`).
#![tactic(auto)]

pub mod layout;

ghost use Rattle.std.specs.Prelude.{◌≡◌, ◌+◌, ◌≤◌, get_or, set};
ghost use Rattle.words.specs.Word.{bit_of, with_bit, without_bit, top_bit, bit_at};

// The word at `i`, or 0 past the end.
pub fn get(w: &[u64], i: usize) -> u64
    ensures { result ≡ get_or w.now i 0 }
{
    w.get(i).copied().unwrap_or(0)
}

// The word at `i` set; nothing past the end. By index, since the library's `get_mut` says nothing of what the slice ends as.
pub fn put(w: &mut [u64], i: usize, v: u64)
    ensures { w.new ≡ set w.old i v }
{
    if i < w.len() {
        w[i] = v;
    }
}

// The word `k` behind place `at`. A sum that passes the end of a number names a place past the end of the words.
pub fn get_in(w: &[u64], at: usize, k: usize) -> u64
    ensures { result ≡ get_or w.now (at + k) 0 }
{
    get(w, at.saturating_add(k))
}

// The word `k` behind place `at` set.
pub fn put_in(w: &mut [u64], at: usize, k: usize, v: u64)
    ensures { w.new ≡ set w.old (at + k) v }
{
    put(w, at.saturating_add(k), v);
}

// Bit `p` alone, for a priority.
#[tactic(auto, unfolding(crate::specs::Word::bit_of))]
pub fn bit(p: u64) -> u64
    ensures { result ≡ bit_of p }
{
    if p <= 31 { 1u64 << p } else { 1 }
}

// `m` with bit `p` set.
#[tactic(auto, unfolding(crate::specs::Word::with_bit))]
pub fn with_bit(m: u64, p: u64) -> u64
    ensures { result ≡ with_bit m p }
{
    m | bit(p)
}

// `m` with bit `p` cleared by mask.
#[tactic(auto, unfolding(crate::specs::Word::without_bit))]
pub fn without_bit(m: u64, p: u64) -> u64
    ensures { result ≡ without_bit m p }
{
    m & (bit(p) ^ 0xffff_ffff)
}

// The highest set bit of the low 32, or 0 where none is set: no Option, since bit 0 is no priority's.
pub fn top_bit(m: u64) -> u64
    ensures { result ≡ top_bit m }
{
    let low = (m & 0xffff_ffff) as u32;
    if low == 0 {
        return 0;
    }
    let zeros = u32::leading_zeros(low);
    (31 - zeros) as u64
}

// Bit `p` of `m`.
#[tactic(auto, unfolding(crate::specs::Word::bit_at))]
pub fn bit_at(m: u64, p: u64) -> u64
    requires { p ≤ 31 }
    ensures { result ≡ bit_at m p }
{
    (m >> p) % 2
}
