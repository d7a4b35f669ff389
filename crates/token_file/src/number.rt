// Numbers as bytes, the lowest byte first. One after the other they are written to one buffer and read from one file, at offsets that the layout gives.
ghost use Rattle.std.specs.Prelude.{◌≡◌, ◌+◌, ◌≤◌, ◌<◌, ◌^◌, length};
ghost use Rattle.std.proofs.lemmas.List.Edits.{sets};
ghost use Rattle.token_file.specs.Format.{little, number_at};

// Writes `n` as `width` bytes from `at` on: any width, where `to_le_bytes` has eight bytes. The cast is of a number below 256. By an index: an iterator over
// `out[at..at + width]` would name the same range, and borrow it. It counts from 0, so that the compiler lays the stores out without a test
// for each: from `at` on it does not.
pub fn put_little(out: &mut [u8], at: usize, width: usize, n: usize)
    requires { at + width ≤ length out.old }
    ensures { out.new ≡ sets out.old at (little width n) }
{
    let mut rest = n;
    for k in 0..width {
        out[at + k] = (rest % 256) as u8;
        rest /= 256;
    }
}

// The number of `width` bytes from `at` on. Eight bytes are the most that fit, and `from_le_bytes` wants all eight.
pub fn get_little(file: &[u8], at: usize, width: usize) -> usize
    requires { (at + width ≤ length file.now) × (width ≤ 8) }
    ensures { (result ≡ number_at file.now at width) × (result < 256 ^ width) }
{
    let mut n = 0;
    for i in (at..at + width).rev() {
        n = n * 256 + usize::from(file[i]);
    }
    n
}
