// The expiry of an advance, whole: the due timers in order, what refuses them, and, if nothing does, what they do.
#![tactic(auto)]

ghost use Rattle.std.specs.Prelude.{◌≡◌, ◌≤◌, length, take, OnErr};
ghost use Rattle.answers.specs.Errors.{refusal};
ghost use Rattle.objects.specs.Objects.{objects_base, object_count};
ghost use Rattle.expiry.specs.Check.{list_refusal};
ghost use Rattle.expiry_advance.specs.Advance.{arranged, ran, order, expiry_refusal, expiry_words};

use answers::error::SchedulerError;
use expiry::{check, due, expire};
use expiry_order::sort;
use words::layout;

// With a policy due timers go by due, then address; without one, by address. The room is lent, since there is no heap.
#[tactic(auto, unfolding(crate::specs::Advance::arranged))]
fn arrange(w: &[u64], base: usize, list: &mut [u64], room: &mut [u64])
    requires { length list.old ≤ length room.old }
    ensures { list.new ≡ arranged w.now base list.old }
{
    if words::get(w, layout::POLICY) != 0 {
        sort(w, base, list, room);
    }
}

// The timers of the list expire, unless one is refused: then nothing changes.
#[tactic(auto, unfolding(crate::specs::Advance::ran))]
fn run(w: &mut [u64], base: usize, list: &[u64], time: u64) -> Result<(), SchedulerError>
    ensures told { (refusal result ≡ list_refusal w.old base list.now time) × (w.new ≡ ran w.old base list.now time) }
    ensures err { OnErr result (w.new ≡ w.old) }
{
    check::check_list(w, base, list, time)?;
    expire::expire_list(w, base, list, time);
    Ok(())
}

// The due timers in the order in which they go, at the start of the list. Answers how many.
fn gather(w: &[u64], time: u64, list: &mut [u64], room: &mut [u64]) -> usize
    requires { (object_count w.now ≤ length list.old) × (length list.old ≤ length room.old) }
    ensures { (take result list.new ≡ order w.now time) × (result ≤ length list.new) }
{
    let base = objects::objects_base(w);
    let n = due::collect(w, time, list);
    arrange(w, base, &mut list[..n], room);
    n
}

// With room for every object in two lists.
#[tactic(auto, unfolding(crate::specs::Advance::expiry_refusal, crate::specs::Advance::expiry_words))]
fn expire_in(
    w: &mut [u64],
    time: u64,
    list: &mut [u64],
    room: &mut [u64],
) -> Result<(), SchedulerError>
    requires { (object_count w.old ≤ length list.old) × (length list.old ≤ length room.old) }
    ensures told { (refusal result ≡ expiry_refusal w.old time) × (w.new ≡ expiry_words w.old time) }
    ensures err { OnErr result (w.new ≡ w.old) }
{
    let n = gather(w, time, list, room);
    run(w, objects::objects_base(w), &list[..n], time)
}

// With two lists of `N` places.
fn expire_within<const N: usize>(w: &mut [u64], time: u64) -> Result<(), SchedulerError>
    requires { (object_count w.old ≤ N) × (N ≤ 4096) }
    ensures told { (refusal result ≡ expiry_refusal w.old time) × (w.new ≡ expiry_words w.old time) }
    ensures err { OnErr result (w.new ≡ w.old) }
{
    let mut list = [0u64; N];
    let mut room = [0u64; N];
    expire_in(w, time, &mut list, &mut room)
}

// The timers that are due at `time` expire. A time at which none is due needs no list, and few objects need a short one.
#[tactic(auto, using(crate::proofs::AdvanceLaws::none_refused, crate::proofs::AdvanceLaws::none_changed))]
pub fn expire_timers(w: &mut [u64], time: u64) -> Result<(), SchedulerError>
    ensures told { (refusal result ≡ expiry_refusal w.old time) × (w.new ≡ expiry_words w.old time) }
    ensures err { OnErr result (w.new ≡ w.old) }
{
    if !due::any_due(w, time) {
        return Ok(());
    }
    if objects::count(w) <= 64 {
        return expire_within::<64>(w, time);
    }
    expire_within::<4096>(w, time)
}
