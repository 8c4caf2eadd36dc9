// Timers and DPCs made, or made anew.
ghost use Rattle.std.specs.Prelude.{◌≡◌, ◌+◌, get_or, IfOk};
ghost use Rattle.answers.specs.Errors.{refusal, done};
ghost use Rattle.answers.specs.Outcome.{outcome};
ghost use Rattle.words.specs.Layout as at;
ghost use Rattle.timers.specs.Initialize.{new_timer, new_dpc, object_overlaps, any_object, dpc_overlaps, any_dpc, place_refusal, in_use, timer_refusal, never_set, located, record_put, timer_initialized, dpc_full, dpc_refusal, dpc_initialized};

use super::record;
use answers::error::SchedulerError;
use arch::Architecture;
use dpc_table::NewDpc;
use images::TimerBacking;
use words::layout;

// The bytes that an event and a mutex are taken to have.
const EVENT_SIZE: u64 = 24;

const MUTEX_SIZE: u64 = 56;

// How many times a timer, and how many times a DPC, can be initialized.
const LIFETIME: u64 = 65_536;

// ---- whether the range has a byte of another timer, of another DPC, of an event or of a mutex

#[tactic(auto, unfolding(crate::specs::Initialize::object_overlaps))]
fn object_overlaps(w: &[u64], at: usize, address: u64, size: u64) -> bool
    ensures { result ≡ object_overlaps w.now at address size }
{
    let key = words::get_in(w, at, layout::KEY);
    match words::get_in(w, at, layout::KIND) {
        objects::TIMER => key != address && record::timer_overlaps(w, at, address, size),
        objects::EVENT => images::overlap(address, size, key, EVENT_SIZE),
        _ => images::overlap(address, size, key, MUTEX_SIZE),
    }
}

// Proved by `any_from_walk`, as every walk of a table with a test.
#[tactic(auto, unfolding(crate::specs::Initialize::any_object))]
fn any_object(w: &[u64], address: u64, size: u64) -> bool
    ensures { result ≡ any_object w.now address size }
{
    let base = objects::objects_base(w);
    (0..objects::count(w)).any(|i| object_overlaps(w, layout::entry_at(base, i), address, size))
}

#[tactic(auto, unfolding(crate::specs::Initialize::dpc_overlaps, crate::specs::Release::dpc_stands))]
fn dpc_overlaps(w: &[u64], at: usize, address: u64, size: u64) -> bool
    ensures { result ≡ dpc_overlaps w.now at address size }
{
    words::get_in(w, at, layout::ADDRESS) != address && record::dpc_overlaps(w, at, address, size)
}

// Proved by `any_from_walk`, as every walk of a table with a test.
#[tactic(auto, unfolding(crate::specs::Initialize::any_dpc))]
fn any_dpc(w: &[u64], address: u64, size: u64) -> bool
    ensures { result ≡ any_dpc w.now address size }
{
    let base = objects::dpcs_base(w);
    (0..dpcs::record::count(w)).any(|i| dpc_overlaps(w, layout::entry_at(base, i), address, size))
}

#[tactic(auto, unfolding(crate::specs::Initialize::place_refusal, crate::specs::Initialize::range_refusal, images::specs::Place::location_refusal))]
fn check_place(
    w: &[u64],
    address: u64,
    size: u64,
    architecture: Architecture,
    backing: TimerBacking,
) -> Result<(), SchedulerError>
    ensures { refusal result ≡ place_refusal w.now address size architecture backing }
{
    if !images::is_located(address, size, architecture, backing) {
        return Err(SchedulerError::InvalidLocation);
    }
    if any_object(w, address, size) || any_dpc(w, address, size) {
        return Err(SchedulerError::Overlap);
    }
    Ok(())
}

// ---- initialize_timer

// Whether there is such a timer and it is inserted, or some thread waits for it.
#[tactic(auto, unfolding(crate::specs::Initialize::in_use))]
fn is_in_use(w: &[u64], address: u64) -> bool
    ensures { result ≡ in_use w.now address }
{
    wakes::waits_on(w, objects::TIMER, address)
        || objects::place_of(w, objects::TIMER, address).is_some_and(|at| record::is_inserted(
            w, at,
        ))
}

// The number of the initialization.
#[tactic(auto, unfolding(crate::specs::Initialize::timer_refusal))]
fn check_timer(
    w: &[u64],
    address: u64,
    architecture: Architecture,
    backing: TimerBacking,
) -> Result<u64, SchedulerError>
    ensures refused { refusal result ≡ timer_refusal w.now address architecture backing }
    ensures number { IfOk result (λ n. n ≡ get_or w.now at.timer_initializations 0 + 1) }
{
    if objects::collision(w, objects::TIMER, address) {
        return Err(SchedulerError::OtherKind);
    }
    if objects::is_full(w, address) {
        return Err(SchedulerError::Full);
    }
    let before = words::get(w, layout::TIMER_INITIALIZATIONS);
    if LIFETIME <= before {
        return Err(SchedulerError::Lifetime);
    }
    if is_in_use(w, address) {
        return Err(SchedulerError::InUse);
    }
    let size = images::timer_size(architecture);
    check_place(w, address, size, architecture, backing)?;
    Ok(before + 1)
}

#[tactic(auto, unfolding(crate::specs::Initialize::new_timer))]
fn new_timer(manual_reset: bool) -> objects::Object
    ensures { result ≡ new_timer manual_reset }
{
    objects::Object {
        kind: objects::TIMER,
        manual: u64::from(manual_reset),
        signaled: 0,
        owner: 0,
    }
}

// A timer that has never been set.
#[tactic(auto, unfolding(crate::specs::Initialize::never_set))]
fn put_never_set(w: &mut [u64], at: usize)
    ensures { w.new ≡ never_set w.old at }
{
    words::put_in(w, at, layout::INSERTED, 0);
    words::put_in(w, at, layout::DUE, 0);
    words::put_in(w, at, layout::PERIOD, 0);
    words::put_in(w, at, layout::TIMER_DPC, 0);
    words::put_in(w, at, layout::ABSOLUTE, 0);
    words::put_in(w, at, layout::ARM, 0);
}

#[tactic(auto, unfolding(crate::specs::Initialize::located))]
fn put_location(w: &mut [u64], at: usize, architecture: Architecture, backing: TimerBacking)
    ensures { w.new ≡ located w.old at architecture backing }
{
    words::put_in(
        w,
        at,
        layout::TIMER_ARCHITECTURE,
        images::architecture_number(architecture),
    );
    words::put_in(w, at, layout::TIMER_BACKING, images::backing_kind(backing));
    words::put_in(w, at, layout::TIMER_BASE, images::backing_base(backing));
    words::put_in(w, at, layout::TIMER_SIZE, images::backing_size(backing));
    words::put_in(w, at, layout::TIMER_MAPPED, images::backing_mapped(backing));
}

// The words of a timer's record behind those of every object, for the initialization with the number `n`; behind place 0 where there is
// no such timer.
#[tactic(auto, unfolding(crate::specs::Initialize::record_put))]
fn put_record(
    w: &mut [u64],
    address: u64,
    architecture: Architecture,
    backing: TimerBacking,
    n: u64,
)
    ensures { w.new ≡ record_put w.old address architecture backing n }
{
    let at = objects::place_of(w, objects::TIMER, address).unwrap_or(0);
    put_never_set(w, at);
    put_location(w, at, architecture, backing);
    words::put_in(w, at, layout::INITIALIZATION, n);
}

#[tactic(auto, unfolding(crate::specs::Initialize::timer_initialized))]
pub fn initialize_timer(
    w: &mut [u64],
    address: u64,
    architecture: Architecture,
    backing: TimerBacking,
    manual_reset: bool,
) -> Result<(), SchedulerError>
    ensures { outcome (done result) w.new ≡ timer_initialized w.old address architecture backing manual_reset }
{
    let n = check_timer(w, address, architecture, backing)?;
    objects::enter(w, address, new_timer(manual_reset));
    put_record(w, address, architecture, backing, n);
    words::put(w, layout::TIMER_INITIALIZATIONS, n);
    Ok(())
}

// ---- initialize_dpc

// Whether the address is new and there is no room for a new DPC.
#[tactic(auto, unfolding(crate::specs::Initialize::dpc_full))]
fn is_dpc_full(w: &[u64], address: u64) -> bool
    ensures { result ≡ dpc_full w.now address }
{
    objects::find_dpc(w, address).is_none()
        && words::get(w, layout::DPC_LIMIT) <= words::get(w, layout::DPCS)
}

// The number of the initialization.
#[tactic(auto, unfolding(crate::specs::Initialize::dpc_refusal))]
fn check_dpc(
    w: &[u64],
    address: u64,
    architecture: Architecture,
    backing: TimerBacking,
) -> Result<u64, SchedulerError>
    ensures refused { refusal result ≡ dpc_refusal w.now address architecture backing }
    ensures number { IfOk result (λ n. n ≡ get_or w.now at.dpc_initializations 0 + 1) }
{
    if objects::find_object(w, address).is_some() {
        return Err(SchedulerError::OtherKind);
    }
    if is_dpc_full(w, address) {
        return Err(SchedulerError::Full);
    }
    let before = words::get(w, layout::DPC_INITIALIZATIONS);
    if LIFETIME <= before {
        return Err(SchedulerError::Lifetime);
    }
    if record::is_busy(w, address) || dpcs::named::is_named(w, address) {
        return Err(SchedulerError::Busy);
    }
    let size = images::dpc_size(architecture);
    check_place(w, address, size, architecture, backing)?;
    Ok(before + 1)
}

#[tactic(auto, unfolding(crate::specs::Initialize::new_dpc))]
fn new_dpc(architecture: Architecture, backing: TimerBacking, routine: u64, context: u64) -> NewDpc
    ensures { result ≡ new_dpc architecture backing routine context }
{
    NewDpc {
        architecture: images::architecture_number(architecture),
        backing: images::backing_kind(backing),
        base: images::backing_base(backing),
        size: images::backing_size(backing),
        mapped: images::backing_mapped(backing),
        routine,
        context,
    }
}

#[tactic(auto, unfolding(crate::specs::Initialize::dpc_initialized))]
pub fn initialize_dpc(
    w: &mut [u64],
    address: u64,
    architecture: Architecture,
    backing: TimerBacking,
    routine: u64,
    context: u64,
) -> Result<(), SchedulerError>
    ensures { outcome (done result) w.new ≡ dpc_initialized w.old address architecture backing routine context }
{
    let n = check_dpc(w, address, architecture, backing)?;
    dpc_table::enter(w, address, new_dpc(architecture, backing, routine, context));
    words::put(w, layout::DPC_INITIALIZATIONS, n);
    Ok(())
}
