// DPCs made and taken out. Both change the numbers of DPCs, and with them the links of the queue.
#![tactic(auto)]

ghost use Rattle.std.specs.Prelude.{◌≡◌, ◌≤◌};
ghost use Rattle.chains.specs.Chain.{next_of};
ghost use Rattle.dpc_table.specs.Table.{put_idle, put_image, put_dpc, raised_number, number_raised, links_raised, inserted, entered, number_put, number_to, numbered, new_number, link_renewed, links_renewed, relinked, settled, closed_up};

use chains::Chain;
use dpcs::record;
use words::layout;

// What a new DPC has beside its address, as the words of a record.
#[derive(Clone, Copy, Debug, PartialEq, Eq)]
pub struct NewDpc {
    pub architecture: u64,
    pub backing: u64,
    pub base: u64,
    pub size: u64,
    pub mapped: u64,
    pub routine: u64,
    pub context: u64,
}

// What marks a record that goes: the phase of a DPC, the kind of an object.
pub const GONE: u64 = 9;

// The record at place `at` idle, in no queue, and no timer's.
fn put_idle(w: &mut [u64], at: usize, address: u64)
    ensures { w.new ≡ put_idle w.old at address }
{
    words::put(w, at, address);
    words::put_in(w, at, layout::PHASE, record::IDLE);
    words::put_in(w, at, layout::NEXT_QUEUED, 0);
    words::put_in(w, at, layout::NAMED_BY, 0);
}

// A line a word, as each record is written.
fn put_image(w: &mut [u64], at: usize, d: NewDpc)
    ensures { w.new ≡ put_image w.old at d }
{
    words::put_in(w, at, layout::DPC_ARCHITECTURE, d.architecture);
    words::put_in(w, at, layout::DPC_BACKING, d.backing);
    words::put_in(w, at, layout::DPC_BASE, d.base);
    words::put_in(w, at, layout::DPC_SIZE, d.size);
    words::put_in(w, at, layout::DPC_MAPPED, d.mapped);
    words::put_in(w, at, layout::ROUTINE, d.routine);
    words::put_in(w, at, layout::CONTEXT, d.context);
}

fn put_dpc(w: &mut [u64], at: usize, address: u64, d: NewDpc)
    ensures { w.new ≡ put_dpc w.old at address d }
{
    put_idle(w, at, address);
    put_image(w, at, d);
}

// What a DPC's number becomes when a record is made at the position. No DPC's number passes 4096.
fn raised_number(n: u64, position: u64) -> u64
    ensures { result ≡ raised_number n position }
{
    if n <= position {
        return n;
    }
    if 4096 <= n {
        return n;
    }
    n + 1
}

fn raise_number(w: &mut [u64], at: usize, position: u64)
    ensures { w.new ≡ number_raised w.old at position }
{
    let n = words::get(w, at);
    words::put(w, at, raised_number(n, position));
}

// The numbers that the queue has, of its first, of each of `n` DPCs' next, and of its last.
fn raise_links(w: &mut [u64], n: u64, position: u64)
    requires { n ≤ 4096 }
    ensures { w.new ≡ links_raised w.old n position }
{
    let c = record::queue_chain(w);
    for k in 0..n + 1 {
        raise_number(w, c.link_at(k), position);
    }
    raise_number(w, layout::QUEUE_LAST, position);
}

// A new DPC where the addresses keep rising, if the table can have one more.
fn insert(w: &mut [u64], address: u64, d: NewDpc)
    ensures { w.new ≡ inserted w.old address d }
{
    let n = words::get(w, layout::DPCS);
    if 4096 <= n {
        return;
    }
    let base = objects::dpcs_base(w);
    let i = tables::find(w, base, n, address);
    raise_links(w, n, i);
    tables::open_gap(w, base, n, i);
    put_dpc(w, layout::entry_at(base, i), address, d);
    words::put(w, layout::DPCS, n + 1);
}

// The DPC at the address as given, and idle: in its place where it is known, else new.
#[tactic(auto, unfolding(crate::specs::Table::entered))]
pub fn enter(w: &mut [u64], address: u64, d: NewDpc)
    ensures { w.new ≡ entered w.old address d }
{
    match objects::find_dpc(w, address) {
        Some(at) => put_dpc(w, at, address, d),
        None => insert(w, address, d),
    }
}

// The DPC at place `at`, unless it goes, gets the number after `last`. Answers the last number given.
fn number_one(w: &mut [u64], at: usize, last: u64) -> u64
    requires { last ≤ 4096 }
    ensures { (result ≡ number_to w.old at last) × (w.new ≡ number_put w.old at last) }
{
    if words::get_in(w, at, layout::PHASE) == GONE {
        return last;
    }
    words::put_in(w, at, layout::NEW_NUMBER, last + 1);
    last + 1
}

// Each DPC that stays gets its new number.
fn number(w: &mut [u64])
    ensures { w.new ≡ numbered w.old }
{
    let base = objects::dpcs_base(w);
    let mut last: u64 = 0;
    for i in 0..record::count(w) {
        last = number_one(w, layout::entry_at(base, i), last);
    }
}

// The new number of DPC `n`; none stays none.
fn new_number(w: &[u64], n: u64) -> u64
    ensures { result ≡ new_number w.now n }
{
    if n == 0 {
        return 0;
    }
    words::get_in(w, record::place(w, n), layout::NEW_NUMBER)
}

// The new number of the one after `before` in its place. Answers the old one.
fn renew_link(w: &mut [u64], c: Chain, before: u64) -> u64
    ensures { (result ≡ next_of w.old c before) × (w.new ≡ link_renewed w.old c before) }
{
    let next = c.after(w, before);
    let renewed = new_number(w, next);
    words::put(w, c.link_at(before), renewed);
    next
}

// The queue walked from its first on, by the old numbers. Not by `members`, which lends the words: each link is renewed on the way.
fn renew_links(w: &mut [u64], c: Chain)
    ensures { w.new ≡ links_renewed w.old c }
{
    let mut before: u64 = 0;
    for _passed in 0..4097u32 {
        before = renew_link(w, c, before);
        if before == 0 {
            return;
        }
    }
}

// The queue by the new numbers.
fn relink(w: &mut [u64])
    ensures { w.new ≡ relinked w.old }
{
    renew_links(w, record::queue_chain(w));
    let last = words::get(w, layout::QUEUE_LAST);
    words::put(w, layout::QUEUE_LAST, new_number(w, last));
}

// The DPCs that go taken out of the table, and the count. What this shares with the closing up of the timers is `tables::compact`.
fn settle(w: &mut [u64])
    ensures { w.new ≡ settled w.old }
{
    let base = objects::dpcs_base(w);
    let n = record::count(w);
    let stay = tables::compact(w, base, n, layout::PHASE, GONE);
    words::put(w, layout::DPCS, stay);
}

// Every DPC whose phase is GONE taken out; none of them is in the queue.
pub fn close_up(w: &mut [u64])
    ensures { w.new ≡ closed_up w.old }
{
    number(w);
    relink(w);
    settle(w);
}
