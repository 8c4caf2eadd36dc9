// Timers set and cancelled.
#![tactic(auto)]

ghost use Rattle.std.specs.Prelude.{◌≡◌, ◌+◌, ◌<◌, get_or, IfOk};
ghost use Rattle.answers.specs.declared.Answer.TheVariants as answer;
ghost use Rattle.answers.specs.Errors.{refusal, answer_of};
ghost use Rattle.answers.specs.Outcome.{outcome};
ghost use Rattle.words.specs.Layout as at;
ghost use Rattle.objects.specs.Objects.{place_of};
ghost use Rattle.arming.specs.Arm.{largest, named_elsewhere, new_refusal, set_refusal, named, unnamed, setting_of, setting_put, armed, timer_set, own_work, own_queued, withdrawn_own, disarmed, timer_cancelled, timer_set_signed};

use answers::error::SchedulerError;
use timers::record;
use words::layout;

// What a timer is set to. `absolute` is 0 or 1, as the word holds it; `arm` is how many times the timer has been set.
#[derive(Clone, Copy, Debug, PartialEq, Eq)]
pub struct Setting {
    pub due: u64,
    pub absolute: u64,
    pub period: u64,
    pub dpc: u64,
    pub arm: u64,
}

// ---- set_timer

// Whether the DPC at place `at` is had by an inserted timer other than this one.
#[tactic(auto, unfolding(crate::specs::Arm::named_elsewhere))]
fn is_named_elsewhere(w: &[u64], at: usize, address: u64) -> bool
    ensures { result ≡ named_elsewhere w.now at address }
{
    let holder = words::get_in(w, at, layout::NAMED_BY);
    holder != 0 && holder != address
}

// The DPC that the timer is to have; 0 is no DPC.
#[tactic(auto, unfolding(crate::specs::Arm::new_refusal))]
fn check_new(w: &[u64], address: u64, dpc: u64) -> Result<(), SchedulerError>
    ensures { refusal result ≡ new_refusal w.now address dpc }
{
    if dpc == 0 {
        return Ok(());
    }
    let at = objects::find_dpc(w, dpc).ok_or(SchedulerError::Unknown)?;
    if is_named_elsewhere(w, at, address) {
        return Err(SchedulerError::Named);
    }
    if record::is_busy(w, dpc) {
        return Err(SchedulerError::Busy);
    }
    Ok(())
}

// Where the timer stands.
#[tactic(auto, unfolding(crate::specs::Arm::set_refusal, crate::specs::Arm::former_busy))]
fn check_set(w: &[u64], address: u64, period: i32, dpc: u64) -> Result<usize, SchedulerError>
    ensures refused { refusal result ≡ set_refusal w.now address period dpc }
    ensures place { IfOk result (λ place. place ≡ place_of w.now 2 address) }
    ensures arm { IfOk result (λ place. get_or w.now (place + at.arm) 0 < largest) }
{
    if period < 0 {
        return Err(SchedulerError::NegativePeriod);
    }
    check_new(w, address, dpc)?;
    let at = objects::place_of(w, objects::TIMER, address).ok_or(SchedulerError::Unknown)?;
    let former = words::get_in(w, at, layout::TIMER_DPC);
    if former != 0 && record::is_busy(w, former) {
        return Err(SchedulerError::Busy);
    }
    if words::get_in(w, at, layout::ARM) == u64::MAX {
        return Err(SchedulerError::CountOverflow);
    }
    Ok(at)
}

// The DPC said to be had by the inserted timer `holder`, or by none where that is 0.
#[tactic(auto, unfolding(crate::specs::Arm::named))]
fn name(w: &mut [u64], dpc: u64, holder: u64)
    ensures { w.new ≡ named w.old dpc holder }
{
    if dpc == 0 {
        return;
    }
    if let Some(at) = objects::find_dpc(w, dpc) {
        words::put_in(w, at, layout::NAMED_BY, holder);
    }
}

// The DPC of the timer at place `at`, if it is inserted, had by none.
#[tactic(auto, unfolding(crate::specs::Arm::unnamed))]
pub fn unname(w: &mut [u64], at: usize)
    ensures { w.new ≡ unnamed w.old at }
{
    if record::is_inserted(w, at) {
        let dpc = words::get_in(w, at, layout::TIMER_DPC);
        name(w, dpc, 0);
    }
}

// What the timer at place `at` is set to, once more than it has been.
#[tactic(auto, unfolding(crate::specs::Arm::setting_of))]
fn setting_of(w: &[u64], at: usize, due: u64, absolute: bool, period: i32, dpc: u64) -> Setting
    requires { get_or w.now (at + 10) 0 < 18446744073709551615 }
    ensures { result ≡ setting_of w.now at due absolute period dpc }
{
    Setting {
        due,
        absolute: u64::from(absolute),
        period: u64::try_from(period).unwrap_or(0),
        dpc,
        arm: words::get_in(w, at, layout::ARM) + 1,
    }
}

#[tactic(auto, unfolding(crate::specs::Arm::setting_put))]
fn put_setting(w: &mut [u64], at: usize, s: Setting)
    ensures { w.new ≡ setting_put w.old at s }
{
    words::put_in(w, at, layout::SIGNALED, 0);
    words::put_in(w, at, layout::INSERTED, 1);
    words::put_in(w, at, layout::DUE, s.due);
    words::put_in(w, at, layout::PERIOD, s.period);
    words::put_in(w, at, layout::TIMER_DPC, s.dpc);
    words::put_in(w, at, layout::ABSOLUTE, s.absolute);
    words::put_in(w, at, layout::ARM, s.arm);
}

// The timer at place `at` inserted, and both its former and its new DPC told.
#[tactic(auto, unfolding(crate::specs::Arm::armed))]
fn arm(w: &mut [u64], at: usize, address: u64, s: Setting)
    ensures { w.new ≡ armed w.old at address s }
{
    unname(w, at);
    put_setting(w, at, s);
    name(w, s.dpc, address);
}

// Answers whether the timer was inserted already.
#[tactic(auto, unfolding(crate::specs::Arm::timer_set))]
pub fn set_timer(
    w: &mut [u64],
    address: u64,
    due: u64,
    absolute: bool,
    period: i32,
    dpc: u64,
) -> Result<bool, SchedulerError>
    ensures { outcome (answer_of answer.Flag result) w.new ≡ timer_set w.old address due absolute period dpc }
{
    let at = check_set(w, address, period, dpc)?;
    let before = record::is_inserted(w, at);
    let s = setting_of(w, at, due, absolute, period, dpc);
    arm(w, at, address, s);
    Ok(before)
}

// ---- cancel_timer

// Whether the work of the DPC at place `place` is queued and came from the timer at place `at`.
#[tactic(auto, unfolding(crate::specs::Arm::own_work, crate::specs::Arm::own_origin, crate::specs::Arm::same_word, expiry::specs::Check::is_own))]
fn is_own_work(w: &[u64], at: usize, place: usize) -> bool
    ensures { result ≡ own_work w.now at place }
{
    words::get_in(w, place, layout::PHASE) == dpc_queue::QUEUED
        && expiry::check::is_own(w, place, at)
}

// Whether the timer at place `at` is inserted under a policy with a DPC whose queued work is its own.
#[tactic(auto, unfolding(crate::specs::Arm::own_queued))]
fn is_own_queued(w: &[u64], at: usize) -> bool
    ensures { result ≡ own_queued w.now at }
{
    let dpc = words::get_in(w, at, layout::TIMER_DPC);
    record::is_inserted(w, at)
        && words::get(w, layout::POLICY) != 0
        && dpc != 0
        && objects::find_dpc(w, dpc).is_some_and(|place| is_own_work(w, at, place))
}

// The work of the DPC of the timer at place `at` taken out of the queue, where it is the timer's own.
#[tactic(auto, unfolding(crate::specs::Arm::withdrawn_own))]
fn withdraw_own(w: &mut [u64], at: usize, own: bool)
    ensures { w.new ≡ withdrawn_own w.old at own }
{
    if own {
        let n = dpcs::record::number_of(w, words::get_in(w, at, layout::TIMER_DPC)).unwrap_or(0);
        dpc_queue::withdraw(w, n);
    }
}

// The timer at place `at` inserted no more.
#[tactic(auto, unfolding(crate::specs::Arm::disarmed))]
fn disarm(w: &mut [u64], at: usize)
    ensures { w.new ≡ disarmed w.old at }
{
    unname(w, at);
    words::put_in(w, at, layout::INSERTED, 0);
}

// Answers whether the timer was inserted, whatever becomes of its work.
#[tactic(auto, unfolding(crate::specs::Arm::timer_cancelled))]
pub fn cancel_timer(w: &mut [u64], address: u64) -> Result<bool, SchedulerError>
    ensures { outcome (answer_of answer.Flag result) w.new ≡ timer_cancelled w.old address }
{
    let at = objects::place_of(w, objects::TIMER, address).ok_or(SchedulerError::Unknown)?;
    let inserted = record::is_inserted(w, at);
    let own = is_own_queued(w, at);
    withdraw_own(w, at, own);
    disarm(w, at);
    Ok(inserted)
}

// ---- a signed due, as KeSetTimerEx takes it

// A negative due is the time and its magnitude, relative; any other is the due itself, absolute.
#[tactic(auto, unfolding(crate::specs::Arm::timer_set_signed, crate::specs::Arm::set_from))]
pub fn set_timer_signed(
    w: &mut [u64],
    address: u64,
    due: i64,
    period: i32,
    dpc: u64,
) -> Result<bool, SchedulerError>
    ensures { outcome (answer_of answer.Flag result) w.new ≡ timer_set_signed w.old address due period dpc }
{
    if period < 0 {
        return Err(SchedulerError::NegativePeriod);
    }
    match u64::try_from(due) {
        Ok(due) => set_timer(w, address, due, true, period, dpc),
        Err(_) => {
            let time = words::get(w, layout::NOW);
            let due = time
                .checked_add(due.unsigned_abs())
                .ok_or(SchedulerError::DueOverflow)?;
            set_timer(w, address, due, false, period, dpc)
        }
    }
}
