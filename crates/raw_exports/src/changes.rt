// Threads, mutexes, events, waits, time and dispatch.
ghost use Rattle.std.specs.Prelude.{◌≡◌};
ghost use Rattle.threading.specs.Thread as thread;
ghost use Rattle.mutexes.specs.Mutexes as mutexes;
ghost use Rattle.events.specs.Events as events;
ghost use Rattle.event_release.specs.Release as release;
ghost use Rattle.waiting.specs.Wait as wait;
ghost use Rattle.advancing.specs.Advance.{advanced};
ghost use Rattle.dispatcher.specs.Dispatched.{dispatched};
ghost use Rattle.exports.specs.SchedulerAnswer.{truth, given, changed_by, given_all};
ghost use Rattle.raw_exports.specs.Dispatch.{dispatched_by};

use answers::error::SchedulerError;
use exports::scheduler_answer::{change, put_answer};

#[unsafe(no_mangle)]
pub extern "C" fn raw_create_thread(words: &mut [u64], priority: u64, out: &mut [u64]) -> u64
    ensures { given result words.new out.new ≡ changed_by words.old out.old (thread.created words.old priority) }
{
    change(words, out, |w| threading::create_thread(w, priority))
}

#[unsafe(no_mangle)]
pub extern "C" fn raw_priority(words: &mut [u64], id: u64, priority: u64, out: &mut [u64]) -> u64
    ensures { given result words.new out.new ≡ changed_by words.old out.old (thread.prioritized words.old id priority) }
{
    change(words, out, |w| threading::priority(w, id, priority))
}

#[unsafe(no_mangle)]
pub extern "C" fn raw_yield_current(words: &mut [u64], out: &mut [u64]) -> u64
    ensures { given result words.new out.new ≡ changed_by words.old out.old (thread.yielded words.old) }
{
    change(words, out, |w| threading::yield_current(w))
}

#[unsafe(no_mangle)]
pub extern "C" fn raw_terminate(words: &mut [u64], status: u32, out: &mut [u64]) -> u64
    ensures { given result words.new out.new ≡ changed_by words.old out.old (thread.terminated words.old status) }
{
    change(words, out, |w| threading::terminate(w, status))
}

#[unsafe(no_mangle)]
pub extern "C" fn raw_initialize_mutex(words: &mut [u64], key: u64, out: &mut [u64]) -> u64
    ensures { given result words.new out.new ≡ changed_by words.old out.old (mutexes.initialized words.old key) }
{
    change(words, out, |w| mutexes::initialize_mutex(w, key))
}

#[unsafe(no_mangle)]
pub extern "C" fn raw_adopt_mutex(
    words: &mut [u64],
    key: u64,
    owned: u64,
    owner: u64,
    out: &mut [u64],
) -> u64
    ensures { given result words.new out.new ≡ changed_by words.old out.old (mutexes.adopted words.old key (truth owned) owner) }
{
    change(
        words,
        out,
        |w| mutexes::adopt_mutex(w, key, (owned != 0).then_some(owner)),
    )
}

#[unsafe(no_mangle)]
pub extern "C" fn raw_release_mutex(words: &mut [u64], key: u64, out: &mut [u64]) -> u64
    ensures { given result words.new out.new ≡ changed_by words.old out.old (mutexes.released words.old key) }
{
    change(words, out, |w| mutexes::release_mutex(w, key))
}

#[unsafe(no_mangle)]
pub extern "C" fn raw_initialize_event(
    words: &mut [u64],
    key: u64,
    manual: u64,
    signaled: u64,
    out: &mut [u64],
) -> u64
    ensures { given result words.new out.new ≡ changed_by words.old out.old (events.initialized words.old key (truth manual) (truth signaled)) }
{
    change(
        words,
        out,
        |w| events::initialize_event(w, key, manual != 0, signaled != 0),
    )
}

#[unsafe(no_mangle)]
pub extern "C" fn raw_set_event(words: &mut [u64], key: u64, out: &mut [u64]) -> u64
    ensures { given result words.new out.new ≡ changed_by words.old out.old (events.was_set words.old key) }
{
    change(words, out, |w| events::set_event(w, key))
}

#[unsafe(no_mangle)]
pub extern "C" fn raw_reset_event(words: &mut [u64], key: u64, out: &mut [u64]) -> u64
    ensures { given result words.new out.new ≡ changed_by words.old out.old (events.was_reset words.old key) }
{
    change(words, out, |w| events::reset_event(w, key))
}

#[unsafe(no_mangle)]
pub extern "C" fn raw_retire_event_backing(
    words: &mut [u64],
    base: u64,
    size: u64,
    layout: u64,
    out: &mut [u64],
) -> u64
    ensures { given result words.new out.new ≡ changed_by words.old out.old (release.events_retired words.old base size layout) }
{
    change(
        words,
        out,
        |w| event_release::retire_event_backing(w, base, size, layout),
    )
}

#[unsafe(no_mangle)]
pub extern "C" fn raw_delay_until(
    words: &mut [u64],
    deadline: u64,
    irql: u8,
    out: &mut [u64],
) -> u64
    ensures { given result words.new out.new ≡ changed_by words.old out.old (wait.delayed words.old deadline irql) }
{
    change(words, out, |w| waiting::delay_until(w, deadline, irql))
}

#[unsafe(no_mangle)]
pub extern "C" fn raw_advance_to(words: &mut [u64], time: u64, out: &mut [u64]) -> u64
    ensures { given result words.new out.new ≡ changed_by words.old out.old (advanced words.old time) }
{
    change(words, out, |w| advancing::advance_to(w, time))
}

#[unsafe(no_mangle)]
pub extern "C" fn raw_wait(
    words: &mut [u64],
    list: &[u64],
    all: u64,
    timed: u64,
    deadline: u64,
    irql: u8,
    out: &mut [u64],
) -> u64
    ensures { given result words.new out.new ≡ changed_by words.old out.old (wait.waited words.old list.now (truth all) (truth timed) deadline irql) }
{
    change(
        words,
        out,
        |w| waiting::wait(w, list, all != 0, timed != 0, deadline, irql),
    )
}

#[unsafe(no_mangle)]
pub extern "C" fn raw_dispatch(words: &mut [u64], waiting: &mut [u64], out: &mut [u64]) -> u64
    ensures { given_all result words.new waiting.new out.new ≡ dispatched_by words.old waiting.old out.old (dispatched words.old waiting.old) }
{
    if out.len() < 4 {
        return SchedulerError::OutOfForm.number();
    }
    let answer = dispatcher::dispatch::dispatch(words, waiting);
    put_answer(out, answer.into())
}
