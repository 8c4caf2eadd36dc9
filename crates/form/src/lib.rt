// Whether lent words are in form, by the sentence "Words are in form if .." of document 01, section "Limits". Each of its
// clauses is a test of its own, named here. What is about one record is tested record by record, in one pass of each table, which
// also counts the threads by state and the DPCs by phase, for the tests of the chains and of the counts of DPC work. The DPCs' addresses
// are held against the objects' keys by going along both tables, which rise.
//
//   long enough                      header::is_long_enough
//   limits pass their checks         header::limits_pass
//   stored numbers pass theirs       header::numbers_pass, form_threads::numbers_pass, object::numbers_pass, timer::numbers_pass,
//                                    dpc_records::numbers_pass
//   and those that say nothing are 0 header::has_no_arguments, form_threads::exit_passes, object::mutex_passes, object::owner_lives,
//                                    form_dpc::mapped_passes, dpc_records::origin_passes
//   no key stands twice              form_dpc::key_rises, dpc_records::address_stands_once
//   threads number 1 upward          nothing to test: a thread's number is the place of its record
//   only the current one runs        form_threads::runs_if_current
//   owners are live                  object::owner_lives
//   waited objects exist             form_threads::waits_for_known
//   no list names one twice          form_threads::waits_for_each_once
//   sequences distinct, below next   form_chains::sequences_rise
//   no work's sequence not given     dpc_records::sequence_is_given
//   each chain holds its members     form_chains::waiters_stand_once, form_chains::ready_stand_once, queue::queue_stands_once
//   a timer's DPC serves no other    timer::dpc_serves, dpc_records::is_named_rightly
//   demand 3's sum holds             counts::sum_holds
//   starts less restorations         counts::starts_pass
//   returns less restorations        counts::returns_pass
//
// `timer`, `dpc_records`, `queue` and `counts` are modules of `form_dpc`.
#![tactic(auto)]

ghost use Rattle.std.specs.Prelude.{◌≡◌};
ghost use Rattle.form.specs.Form.{in_form, checked};

use answers::error::SchedulerError;
use form_dpc::{counts, dpc_records, queue};

pub mod header;
pub mod object;

#[tactic(auto, unfolding(crate::specs::Form::in_form))]
pub fn in_form(w: &[u64]) -> bool
    ensures { result ≡ in_form w.now }
{
    if !header::limits_pass(w) {
        return false;
    }
    if !header::is_long_enough(w) {
        return false;
    }
    if !header::numbers_pass(w) {
        return false;
    }
    let Some(t) = form_threads::threads_pass(w) else {
        return false;
    };
    if !object::objects_pass(w) {
        return false;
    }
    let Some(d) = dpc_records::dpcs_pass(w) else {
        return false;
    };
    form_chains::sequences_rise(w)
        && form_chains::waiters_stand_once(w, t.waiting)
        && form_chains::ready_stand_once(w, t.ready)
        && queue::queue_stands_once(w, d.queued)
        && counts::sum_holds(w, d.queued, d.active)
        && counts::starts_pass(w, d.active)
        && counts::returns_pass(w, d.returning)
}

// What every call but an opening asks before all else.
#[tactic(auto, unfolding(crate::specs::Form::checked))]
pub fn check(w: &[u64]) -> Result<(), SchedulerError>
    ensures { result ≡ checked w.now }
{
    if !in_form(w) {
        return Err(SchedulerError::OutOfForm);
    }
    Ok(())
}
