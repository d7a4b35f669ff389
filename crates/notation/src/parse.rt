// Words, numbers and bytes of a line.
ghost use Rattle.std.specs.Prelude.{◌≡◌, ◌<◌, ◌≤◌, ◌++◌, length};
ghost use Rattle.notation.specs.Hexadecimal.{digit, hex_byte};

// The next word with the blank that ends it, and what follows.
pub fn split_word(s: &[u8]) -> (&[u8], &[u8])
    ensures whole { s.now ≡ result.0.now ++ result.1.now }
    ensures some { 0 < length s.now → 0 < length result.0.now }
{
    let end = s.iter().position(|b| *b == b' ').map_or(s.len(), |i| i + 1);
    s.split_at(end)
}

// The value of a hexadecimal digit, in lower case.
fn digit(b: u8) -> Option<u8>
    ensures { result ≡ digit b }
{
    match b {
        b'0'..=b'9' => Some(b - b'0'),
        b'a'..=b'f' => Some(b - b'a' + 10),
        _ => None,
    }
}

// The byte that two hexadecimal digits write. What is none counts as 16: the programs answer each line that they read, and have no answer for such a one.
pub fn hex_byte(high: u8, low: u8) -> u8
    ensures { result ≡ hex_byte high low }
{
    let high = digit(high).unwrap_or(16);
    let low = digit(low).unwrap_or(16);
    high.wrapping_mul(16).wrapping_add(low)
}

// The number with one digit more. What is no decimal digit, or too much, is passed over.
fn with_digit(n: usize, b: u8) -> usize {
    match b {
        b'0'..=b'9' => n
            .checked_mul(10)
            .and_then(|m| m.checked_add(usize::from(b - b'0')))
            .unwrap_or(n),
        _ => n,
    }
}

// The decimal number of the word.
pub fn digits(s: &[u8]) -> usize {
    s.iter().fold(0, |n, b| with_digit(n, *b))
}

// The signed number of the word.
fn signed(s: &[u8]) -> i64 {
    let magnitude = i64::try_from(digits(s)).unwrap_or(i64::MAX);
    if s.first() == Some(&b'-') {
        -magnitude
    } else {
        magnitude
    }
}

// Stores the signed numbers of the words, as many as there is room for, and gives them. By an index: with a `zip`, as below, the words would have to be
// counted as well.
pub fn numbers<'a>(s: &[u8], out: &'a mut [i64]) -> &'a [i64]
    ensures { length result.now ≤ length out.old }
{
    let mut words = s.split_inclusive(|b| *b == b' ');
    for k in 0..out.len() {
        let Some(word) = words.next() else {
            return &out[..k];
        };
        out[k] = signed(word);
    }
    out
}

// Stores the bytes that pairs of hexadecimal digits write, as many as there is room for, and gives them.
pub fn bytes<'a>(s: &[u8], out: &'a mut [u8]) -> &'a [u8]
    ensures { length result.now ≤ length out.old }
{
    let (pairs, _) = s.as_chunks::<2>();
    let count = pairs.len().min(out.len());
    for ([high, low], b) in pairs.iter().zip(out.iter_mut()) {
        *b = hex_byte(*high, *low);
    }
    &out[..count]
}
