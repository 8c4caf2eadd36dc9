// What is read of threads.
ghost use Rattle.std.specs.Prelude.{◌≡◌};
ghost use Rattle.model.specs.Call as call;
ghost use Rattle.calls.specs.Called.{called};
ghost use Rattle.answers.specs.Errors.{told_by};
ghost use Rattle.dispatcher.specs.ThreadAnswer as thread;
ghost use Rattle.dispatcher.specs.PlaceAnswer as place;
ghost use Rattle.dispatcher.specs.Read as read;

use answers::error::SchedulerError;
use dispatcher::read::{Place, ThreadView};

pub fn thread(w: &[u64], id: u64) -> Result<Option<ThreadView>, SchedulerError>
    ensures { told_by read.told_thread thread.Refused result ≡ called w.now (call.Reads (call.Thread id)) }
{
    form::check(w)?;
    Ok(dispatcher::read::thread(w, id))
}

// The thread at a position in the order of the numbers, from 0 on.
pub fn threads(w: &[u64], position: u64) -> Result<Option<ThreadView>, SchedulerError>
    ensures { told_by read.told_thread thread.Refused result ≡ called w.now (call.Reads (call.Threads position)) }
{
    form::check(w)?;
    Ok(dispatcher::read::threads_at(w, position))
}

// The object at a position in a thread's wait, from 0 on.
pub fn waited_object(w: &[u64], id: u64, position: u64) -> Result<Option<Place>, SchedulerError>
    ensures { told_by read.told_place place.Refused result ≡ called w.now (call.Reads (call.WaitedObject id position)) }
{
    form::check(w)?;
    Ok(dispatcher::read::waited_object(w, id, position))
}
