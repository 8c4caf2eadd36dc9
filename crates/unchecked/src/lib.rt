// Calls that do not check the form of the words, where that is more than the call of another crate: an argument that may be absent, and
// an image.
#![tactic(auto, unfolding(crate::specs::Unchecked::unchecked))]

ghost use Rattle.std.specs.Prelude.{◌≡◌, length, is_some, unwrap_or};
ghost use Rattle.answers.specs.declared.Answer.TheVariants as answer;
ghost use Rattle.answers.specs.Errors.{done, answer_of};
ghost use Rattle.answers.specs.Outcome.{outcome};
ghost use Rattle.waiting.specs.Wait as waiting;
ghost use Rattle.model.specs.Call as call;
ghost use Rattle.calls.specs.Called.{optional};
ghost use Rattle.calls.specs.Images.{imaged};
ghost use Rattle.unchecked.specs.Unchecked.{unchecked};

use answers::error::SchedulerError;
use waiting::WaitOutcome;

// The bytes that the longest image has.
const LONGEST: usize = 64;

#[tactic(auto, using(calls::proofs::Absent::adopts_given), unfolding(crate::specs::Unchecked::unchecked))]
pub fn adopt_mutex(w: &mut [u64], key: u64, owner: Option<u64>) -> Result<(), SchedulerError>
    ensures { outcome (done result) w.new ≡ unchecked w.old (call.AdoptMutex key (optional (is_some owner) (unwrap_or owner 0))) }
{
    mutexes::adopt_mutex(w, key, owner)
}

#[tactic(auto, using(calls::proofs::Absent::waits_given), unfolding(crate::specs::Unchecked::unchecked))]
pub fn wait(
    w: &mut [u64],
    list: &[u64],
    all: bool,
    deadline: Option<u64>,
    irql: u8,
) -> Result<WaitOutcome, SchedulerError>
    ensures { outcome (answer_of waiting.told result) w.new ≡ unchecked w.old (call.Wait list.now all (optional (is_some deadline) (unwrap_or deadline 0)) irql) }
{
    waiting::wait(
        w,
        list,
        all,
        deadline.is_some(),
        deadline.unwrap_or(0),
        irql,
    )
}

// Apart from `dpc_image`, as in `scheduler_images`.
pub fn timer_image(w: &[u64], address: u64, out: &mut [u8]) -> Result<u64, SchedulerError>
    ensures { imaged (answer_of answer.Count result) out.new ≡ unchecked w.now (call.Reads (call.TimerImage address (length out.old))) out.old }
{
    if out.len() < LONGEST {
        return Err(SchedulerError::OutOfForm);
    }
    scheduler_images::put_timer(w, address, out)
}

pub fn dpc_image(w: &[u64], address: u64, out: &mut [u8]) -> Result<u64, SchedulerError>
    ensures { imaged (answer_of answer.Count result) out.new ≡ unchecked w.now (call.Reads (call.DpcImage address (length out.old))) out.old }
{
    if out.len() < LONGEST {
        return Err(SchedulerError::OutOfForm);
    }
    scheduler_images::put_dpc(w, address, out)
}
