// The header in form: the limits, the length of the words, and the header's numbers.
ghost use Rattle.std.specs.Prelude.{◌≡◌, true};
ghost use Rattle.form.specs.Header.{limits_pass, long_enough, counts_pass, current_passes, ready_passes, no_arguments, policy_passes, lifetimes_pass, header_numbers};

use words::layout;

// How many acceptances of DPC work there can be, and how many initializations of timers and of DPCs.
const LIFETIME: u64 = 65_536;

// Document 01: limits pass their checks.
#[tactic(auto, unfolding(crate::specs::Header::limits_pass))]
pub fn limits_pass(w: &[u64]) -> bool
    ensures { result ≡ limits_pass w.now }
{
    let t = words::get(w, layout::THREAD_LIMIT);
    let o = words::get(w, layout::OBJECT_LIMIT);
    let d = words::get(w, layout::DPC_LIMIT);
    !opening::has_bad_limits(t, o, d)
}

// Document 01: long enough, for limits that pass.
pub fn is_long_enough(w: &[u64]) -> bool
    requires { limits_pass w.now ≡ true }
    ensures { result ≡ long_enough w.now }
{
    let t = words::get(w, layout::THREAD_LIMIT);
    let o = words::get(w, layout::OBJECT_LIMIT);
    let d = words::get(w, layout::DPC_LIMIT);
    256 + 160 * t + 32 * (o + d) <= w.len() as u64
}

// At least one thread, and no more of each than its limit.
#[tactic(auto, unfolding(crate::specs::Header::counts_pass))]
fn counts_pass(w: &[u64]) -> bool
    ensures { result ≡ counts_pass w.now }
{
    let n = words::get(w, layout::THREADS);
    1 <= n
        && n <= words::get(w, layout::THREAD_LIMIT)
        && words::get(w, layout::OBJECTS) <= words::get(w, layout::OBJECT_LIMIT)
        && words::get(w, layout::DPCS) <= words::get(w, layout::DPC_LIMIT)
}

// The current thread is 0 for none, or a thread.
#[tactic(auto, unfolding(crate::specs::Header::current_passes))]
fn current_passes(w: &[u64]) -> bool
    ensures { result ≡ current_passes w.now }
{
    words::get(w, layout::CURRENT) <= words::get(w, layout::THREADS)
}

// The ready word has 32 bits, and none for 0, which is no priority.
#[tactic(auto, unfolding(crate::specs::Header::ready_passes))]
fn ready_passes(w: &[u64]) -> bool
    ensures { result ≡ ready_passes w.now }
{
    let m = words::get(w, layout::READY);
    m <= 0xffff_ffff && words::bit_at(m, 0) == 0
}

// Words that say nothing hold 0: the two timer arguments of no policy.
#[tactic(auto, unfolding(crate::specs::Header::no_arguments))]
fn has_no_arguments(w: &[u64]) -> bool
    ensures { result ≡ no_arguments w.now }
{
    words::get(w, layout::TIMER_ARGUMENT) == 0 && words::get(w, layout::TIMER_ARGUMENT_2) == 0
}

// No policy and no arguments, or a policy whose two timer arguments are not 0 and differ.
#[tactic(auto, unfolding(crate::specs::Header::policy_passes))]
fn policy_passes(w: &[u64]) -> bool
    ensures { result ≡ policy_passes w.now }
{
    let policy = words::get(w, layout::POLICY);
    if policy == 0 {
        return has_no_arguments(w);
    }
    let first = words::get(w, layout::TIMER_ARGUMENT);
    let second = words::get(w, layout::TIMER_ARGUMENT_2);
    policy == 1 && first != 0 && second != 0 && first != second
}

#[tactic(auto, unfolding(crate::specs::Header::lifetimes_pass))]
fn lifetimes_pass(w: &[u64]) -> bool
    ensures { result ≡ lifetimes_pass w.now }
{
    words::get(w, layout::ACCEPTED) <= LIFETIME
        && words::get(w, layout::TIMER_INITIALIZATIONS) <= LIFETIME
        && words::get(w, layout::DPC_INITIALIZATIONS) <= LIFETIME
}

// Document 01: stored numbers pass their checks, of the header.
#[tactic(auto, unfolding(crate::specs::Header::header_numbers))]
pub fn numbers_pass(w: &[u64]) -> bool
    ensures { result ≡ header_numbers w.now }
{
    counts_pass(w) && current_passes(w) && ready_passes(w) && policy_passes(w) && lifetimes_pass(w)
}
