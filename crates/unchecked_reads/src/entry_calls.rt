// Events and timers by their entry in the table of objects, so that a list of them is read in one walk: none where the entry is of
// another kind, 2 past the last. In their order these are what the reads by position tell.
ghost use Rattle.std.specs.Prelude.{◌≡◌};
ghost use Rattle.calls.specs.Guard as kind;
ghost use Rattle.entries.specs.Entries.{event_entry, timer_entry};
ghost use Rattle.exports.specs.SchedulerAnswer.{given};
ghost use Rattle.exports.specs.RecordCall.{read_by};

use exports::record_answer::timer_answer;
use exports::scheduler_answer::answer;

#[unsafe(no_mangle)]
pub extern "C" fn unchecked_event_entry(words: &[u64], entry: u64, out: &mut [u64]) -> u64
    ensures { given result words.now out.new ≡ read_by kind.plain words.now out.old (event_entry words.now «entry») }
{
    answer(out, || entries::event_entry(words, entry))
}

#[unsafe(no_mangle)]
pub extern "C" fn unchecked_timer_entry(words: &[u64], entry: u64, out: &mut [u64]) -> u64
    ensures { given result words.now out.new ≡ read_by kind.timers words.now out.old (timer_entry words.now «entry») }
{
    timer_answer(out, || entries::timer_entry(words, entry))
}
