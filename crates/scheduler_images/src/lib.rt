// The images of timers and DPCs, at the start of an output of bytes; the answer is the size of the image.
#![tactic(auto)]

ghost use Rattle.std.specs.Prelude.{◌≡◌, length};
ghost use Rattle.model.specs.Call as call;
ghost use Rattle.calls.specs.Called.{called};
ghost use Rattle.calls.specs.Guard.{image_refused};
ghost use Rattle.answers.specs.declared.Answer.TheVariants as answer;
ghost use Rattle.answers.specs.Errors.{answer_of};
ghost use Rattle.calls.specs.Images.{imaged, timer_imaged, dpc_imaged};

use answers::error::SchedulerError;
use dpcs::record;

// The bytes that the longest image has.
const LONGEST: usize = 64;

// Whether the words are out of form, or the output is shorter than the longest image.
#[tactic(auto, unfolding(calls::specs::Guard::image_refused))]
fn is_refused(w: &[u64], out: &[u8]) -> bool
    ensures { result ≡ image_refused w.now out.now }
{
    !form::in_form(w) || out.len() < LONGEST
}

#[tactic(auto, unfolding(calls::specs::Images::timer_imaged))]
pub fn put_timer(w: &[u64], address: u64, out: &mut [u8]) -> Result<u64, SchedulerError>
    ensures { imaged (answer_of answer.Count result) out.new ≡ timer_imaged w.now address out.old }
{
    let at = objects::place_of(w, objects::TIMER, address).ok_or(SchedulerError::Unknown)?;
    images::timer_bytes(timers::record::read_timer(w, at), out);
    Ok(timers::record::size_at(w, at))
}

#[tactic(auto, unfolding(calls::specs::Images::dpc_imaged))]
pub fn put_dpc(w: &[u64], address: u64, out: &mut [u8]) -> Result<u64, SchedulerError>
    ensures { imaged (answer_of answer.Count result) out.new ≡ dpc_imaged w.now address out.old }
{
    let n = record::number_of(w, address).ok_or(SchedulerError::Unknown)?;
    let at = record::place(w, n);
    images::dpc_bytes(record::read_dpc(w, at), out);
    Ok(timers::record::dpc_size_at(w, at))
}

// Its guard and `dpc_image`'s are one, `is_refused`; one function given what puts the image would have to promise of it what both say here.
#[tactic(auto, unfolding(calls::specs::Called::called, calls::specs::Guard::guarded_image))]
pub fn timer_image(w: &[u64], address: u64, out: &mut [u8]) -> Result<u64, SchedulerError>
    ensures { imaged (answer_of answer.Count result) out.new ≡ called w.now (call.Reads (call.TimerImage address (length out.old))) out.old }
{
    if is_refused(w, out) {
        return Err(SchedulerError::OutOfForm);
    }
    put_timer(w, address, out)
}

#[tactic(auto, unfolding(calls::specs::Called::called, calls::specs::Guard::guarded_image))]
pub fn dpc_image(w: &[u64], address: u64, out: &mut [u8]) -> Result<u64, SchedulerError>
    ensures { imaged (answer_of answer.Count result) out.new ≡ called w.now (call.Reads (call.DpcImage address (length out.old))) out.old }
{
    if is_refused(w, out) {
        return Err(SchedulerError::OutOfForm);
    }
    put_dpc(w, address, out)
}
