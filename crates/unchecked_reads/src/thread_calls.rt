// What is read of threads, into an `out` of 24 words; a shorter one is refused with 27.
ghost use Rattle.std.specs.Prelude.{◌≡◌};
ghost use Rattle.model.specs.Call as call;
ghost use Rattle.calls.specs.Guard as kind;
ghost use Rattle.exports.specs.SchedulerAnswer.{given};
ghost use Rattle.exports.specs.RecordCall.{read_by};
ghost use Rattle.unchecked.specs.Unchecked.{unchecked};

use exports::record_answer::{place_answer, thread_answer};

#[unsafe(no_mangle)]
pub extern "C" fn unchecked_thread(words: &[u64], id: u64, out: &mut [u64]) -> u64
    ensures { given result words.now out.new ≡ read_by kind.threads words.now out.old (unchecked words.now (call.Reads (call.Thread id))) }
{
    thread_answer(out, || Ok(dispatcher::read::thread(words, id)))
}

#[unsafe(no_mangle)]
pub extern "C" fn unchecked_threads(words: &[u64], position: u64, out: &mut [u64]) -> u64
    ensures { given result words.now out.new ≡ read_by kind.threads words.now out.old (unchecked words.now (call.Reads (call.Threads position))) }
{
    thread_answer(out, || Ok(dispatcher::read::threads_at(words, position)))
}

#[unsafe(no_mangle)]
pub extern "C" fn unchecked_waited_object(
    words: &[u64],
    id: u64,
    position: u64,
    out: &mut [u64],
) -> u64
    ensures { given result words.now out.new ≡ read_by kind.places words.now out.old (unchecked words.now (call.Reads (call.WaitedObject id position))) }
{
    place_answer(
        out,
        || Ok(dispatcher::read::waited_object(words, id, position)),
    )
}
