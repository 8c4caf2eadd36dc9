// A timer and a DPC as the guest's memory has them: the bytes at the start of `bytes`, and their count in `out`.
ghost use Rattle.std.specs.Prelude.{◌≡◌, length};
ghost use Rattle.model.specs.Call as call;
ghost use Rattle.exports.specs.RecordCall.{given_image, imaged_by};
ghost use Rattle.unchecked.specs.Unchecked.{unchecked};

use exports::scheduler_answer::image;

#[unsafe(no_mangle)]
pub extern "C" fn unchecked_timer_image(
    words: &[u64],
    address: u64,
    bytes: &mut [u8],
    out: &mut [u64],
) -> u64
    ensures { given_image result bytes.new out.new ≡ imaged_by bytes.old out.old (unchecked words.now (call.Reads (call.TimerImage address (length bytes.old))) bytes.old) }
{
    image(bytes, out, |b| unchecked::timer_image(words, address, b))
}

#[unsafe(no_mangle)]
pub extern "C" fn unchecked_dpc_image(
    words: &[u64],
    address: u64,
    bytes: &mut [u8],
    out: &mut [u64],
) -> u64
    ensures { given_image result bytes.new out.new ≡ imaged_by bytes.old out.old (unchecked words.now (call.Reads (call.DpcImage address (length bytes.old))) bytes.old) }
{
    image(bytes, out, |b| unchecked::dpc_image(words, address, b))
}
