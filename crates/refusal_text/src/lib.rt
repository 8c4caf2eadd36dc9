// A sentence for each refusal. The writer goes as far as the text has room.
#![tactic(auto)]

ghost use Rattle.script_print.specs.Texts.{Prints};
ghost use Rattle.refusal_text.specs.Sentences.{sentence};

use script_print::Text;

// The sentence of a refusal's number. A number, since 28 and the clock's have no name of one type.
#[tactic(auto, unfolding(crate::specs::Sentences::sentence, crate::specs::Sentences::sentence8, crate::specs::Sentences::sentence15, crate::specs::Sentences::sentence22))]
pub fn put_sentence(text: &mut Text, number: u64)
    ensures { Prints text.old text.new (sentence number) }
{
    match number {
        1 => text.push_bytes(b"the priority is not between 1 and 31"),
        2 => text.push_bytes(b"there is no such thread, object or DPC"),
        3 => text.push_bytes(b"no thread runs"),
        4 => text.push_bytes(b"the table is full, or the key is 0"),
        5 => text.push_bytes(b"the key belongs to something of another kind"),
        6 => text.push_bytes(
            b"it is owned, inserted or waited on, and cannot be initialized again",
        ),
        7 => text.push_bytes(
            b"the list is empty, has more than 64 objects or one twice, or is no list of pairs",
        ),
        8 => text.push_bytes(b"the caller owns a mutex that it would wait for"),
        9 => text.push_bytes(b"the wait would block above IRQL 1"),
        10 => text.push_bytes(
            b"the owner is another, or the thread would exit while it owns a mutex",
        ),
        11 => text.push_bytes(b"the thread has exited"),
        12 => text.push_bytes(b"time would go back"),
        13 => text.push_bytes(b"a due time would pass 2^64 - 1"),
        14 => text.push_bytes(b"there have been 65536 initializations or acceptances"),
        15 => text.push_bytes(b"the location does not suit a timer or a DPC"),
        16 => text.push_bytes(b"its bytes are also another's"),
        17 => text.push_bytes(b"the period is negative"),
        18 => text.push_bytes(b"an inserted timer has the DPC"),
        19 => text.push_bytes(b"the DPC is queued, runs or returns"),
        20 => text.push_bytes(b"the policy is missing, or cannot be chosen"),
        21 => text.push_bytes(b"the queued work has another origin"),
        22 => text.push_bytes(b"it is not the head of the queue, or has another phase or sequence"),
        23 => text.push_bytes(b"the memory cannot be given back"),
        24 => text.push_bytes(b"a count stands at 2^64 - 1"),
        25 => text.push_bytes(b"the configuration of the clock is bad"),
        26 => text.push_bytes(b"the clock would overflow"),
        27 => text.push_bytes(
            b"words are out of form, a slice is too short, or the limits are bad",
        ),
        28 => text.push_bytes(b"the line cannot be read, or not here"),
        _ => text.push_bytes(b"no refusal has this number"),
    }
}
