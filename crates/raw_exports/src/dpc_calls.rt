// DPCs: the policy, the queue, and the work's way from its start to its end.
ghost use Rattle.std.specs.Prelude.{◌≡◌};
ghost use Rattle.dpc_work.specs.Work as calls;
ghost use Rattle.exports.specs.SchedulerAnswer.{given, changed_by};
ghost use Rattle.exports.specs.RecordCall.{started_by};

use exports::record_answer::start;
use exports::scheduler_answer::change;

#[unsafe(no_mangle)]
pub extern "C" fn raw_configure_dpc_dispatch(
    words: &mut [u64],
    first: u64,
    second: u64,
    out: &mut [u64],
) -> u64
    ensures { given result words.new out.new ≡ changed_by words.old out.old (calls.configured words.old first second) }
{
    change(
        words,
        out,
        |w| dpc_work::configure_dpc_dispatch(w, first, second),
    )
}

#[unsafe(no_mangle)]
pub extern "C" fn raw_insert_queue_dpc(
    words: &mut [u64],
    address: u64,
    first: u64,
    second: u64,
    out: &mut [u64],
) -> u64
    ensures { given result words.new out.new ≡ changed_by words.old out.old (calls.queue_inserted words.old address first second) }
{
    change(
        words,
        out,
        |w| dpc_work::insert_queue_dpc(w, address, first, second),
    )
}

#[unsafe(no_mangle)]
pub extern "C" fn raw_remove_queue_dpc(words: &mut [u64], address: u64, out: &mut [u64]) -> u64
    ensures { given result words.new out.new ≡ changed_by words.old out.old (calls.queue_removed words.old address) }
{
    change(words, out, |w| dpc_work::remove_queue_dpc(w, address))
}

#[unsafe(no_mangle)]
pub extern "C" fn raw_start_dpc(words: &mut [u64], address: u64, out: &mut [u64]) -> u64
    ensures { given result words.new out.new ≡ started_by words.old out.old (calls.work_started words.old address) }
{
    start(words, out, |w| dpc_work::start_dpc(w, address))
}

#[unsafe(no_mangle)]
pub extern "C" fn raw_returned_dpc(
    words: &mut [u64],
    address: u64,
    sequence: u64,
    out: &mut [u64],
) -> u64
    ensures { given result words.new out.new ≡ changed_by words.old out.old (calls.work_returned words.old address sequence) }
{
    change(words, out, |w| dpc_work::returned_dpc(w, address, sequence))
}

#[unsafe(no_mangle)]
pub extern "C" fn raw_restored_dpc(
    words: &mut [u64],
    address: u64,
    sequence: u64,
    out: &mut [u64],
) -> u64
    ensures { given result words.new out.new ≡ changed_by words.old out.old (calls.work_restored words.old address sequence) }
{
    change(words, out, |w| dpc_work::restored_dpc(w, address, sequence))
}
