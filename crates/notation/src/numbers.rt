// Signed numbers in decimal.
ghost use Rattle.std.specs.Prelude.{◌≡◌, [], ◌∷◌, ◌++◌, ◌+◌, ◌≤◌, length};
ghost use Rattle.std.proofs.lemmas.List.Edits.{sets};
ghost use Rattle.notation.specs.Decimal.{number_text, separator};

use itoa::Buffer;

// A number's text, in a lent buffer.
fn text(z: i64, buffer: &mut Buffer) -> &[u8]
    ensures is { result.now ≡ number_text z }
    ensures most { length result.now ≤ 20 }
{
    buffer.format(z).as_bytes()
}

// What follows a number of a line that has so many others after it.
pub fn separator_before(others: usize) -> u8
    ensures { result ≡ separator others }
{
    if others == 0 { b'\n' } else { b' ' }
}

// How many bytes a number is written in.
pub fn number_size(z: i64) -> usize
    ensures size { result ≡ length (number_text z) }
    ensures most { result ≤ 20 }
{
    let mut buffer = Buffer::new();
    text(z, &mut buffer).len()
}

// Writes a number and the byte after it from `at` on, and gives where they end. An index, since a line is written to one buffer number by number.
pub fn write_number(out: &mut [u8], at: usize, z: i64, after: u8) -> usize
    requires { at + length (number_text z) + 1 ≤ length out.old }
    ensures end { result ≡ at + length (number_text z) + 1 }
    ensures written { out.new ≡ sets out.old at (number_text z ++ (after ∷ [])) }
{
    let mut buffer = Buffer::new();
    let digits = text(z, &mut buffer);
    let end = at + digits.len();
    out[at..end].copy_from_slice(digits);
    out[end] = after;
    end + 1
}
