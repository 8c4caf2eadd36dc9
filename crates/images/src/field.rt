// Bytes written at a place of an image; what would stand past its end is dropped.
ghost use Rattle.std.specs.Prelude.{◌≡◌, replicate};
ghost use Rattle.images.specs.Field.{placed, little};

// These bytes, from `at` on.
pub fn put_bytes(out: &mut [u8], at: usize, bytes: &[u8])
    ensures { out.new ≡ placed at bytes.now out.old }
{
    if at < out.len() {
        let n = bytes.len().min(out.len() - at);
        out[at..at + n].copy_from_slice(&bytes[..n]);
    }
}

// The lowest `count` bytes of `n`, from `at` on, the lowest first. Not `to_le_bytes`: `count` may pass 8, and the bytes past it are 0.
pub fn put_number(out: &mut [u8], at: usize, count: usize, n: u64)
    ensures { out.new ≡ placed at (little count n) out.old }
{
    let end = out.len().min(at.saturating_add(count));
    let mut rest = n;
    for place in at..end {
        out[place] = (rest % 256) as u8;
        rest /= 256;
    }
}

// The first `count` bytes 0.
pub fn clear(out: &mut [u8], count: usize)
    ensures { out.new ≡ placed 0 (replicate count 0) out.old }
{
    let n = out.len().min(count);
    out[..n].fill(0);
}
