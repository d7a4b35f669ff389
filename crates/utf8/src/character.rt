// Characters: their length, their code point, their bytes, and White_Space.
ghost use Rattle.std.specs.Prelude.{◌≡◌, ◌+◌, ◌%◌, ◌≤◌, length};
ghost use Rattle.std.proofs.lemmas.List.Edits.{sets};
ghost use Rattle.base.specs.Helpers.{nonzero};
ghost use Rattle.base.specs.Bytes.{within};
ghost use Rattle.utf8.specs.Grammar.{char_size};
ghost use Rattle.utf8.specs.Check.{is_tail};
ghost use Rattle.utf8.specs.State.{size_after};
ghost use Rattle.utf8.specs.Character.{code_bits, octets_of, encoded, encode_of, is_white, white_size};
ghost use Rattle.utf8.specs.Helpers.{decode_of};

use crate::state::State;

// UTF8-tail: the bytes of a character after its first.
#[tactic(auto, unfolding(crate::specs::Check::is_tail))]
pub fn is_tail(b: u8) -> bool
    ensures { result ≡ is_tail b }
{
    matches!(b, 0x80..=0xBF)
}

// The length of the character at the front of a slice.
#[tactic(auto, using(crate::proofs::Sizes::sizing))]
pub fn char_size(s: &[u8]) -> Option<usize>
    ensures { result ≡ nonzero (char_size s.now) }
{
    let (first, rest) = s.split_first()?;
    match State::lead(*first) {
        State::Between => Some(1),
        State::Wants { lo, hi, tails } => long_size(rest, lo, hi, tails),
        State::IllFormed => None,
    }
}

// Whether the second byte of a character is from `lo` to `hi`. The bounds of UTF8-tail, as most characters have them, stand apart: for those the
// compiler then leaves one test of two. Together, three-byte characters take a tenth more time.
#[tactic(auto, unfolding(crate::specs::Check::is_tail))]
fn is_second(b: u8, lo: u8, hi: u8) -> bool
    ensures { result ≡ within lo hi b }
{
    match (lo, hi) {
        (0x80, 0xBF) => is_tail(b),
        _ => (lo..=hi).contains(&b),
    }
}

// The length of the character whose first byte wants a byte from `lo` to `hi` and then `tails` UTF8-tails, where `rest` begins with them.
fn long_size(rest: &[u8], lo: u8, hi: u8, tails: u8) -> Option<usize>
    requires { tails ≤ 2 }
    ensures { result ≡ nonzero (size_after (State.Wants lo hi tails) rest.now) }
{
    match (tails, rest) {
        (0, [b, ..]) => is_second(*b, lo, hi).then_some(2),
        (1, [b, c, ..]) => (is_second(*b, lo, hi) && is_tail(*c)).then_some(3),
        (2, [b, c, d, ..]) => (is_second(*b, lo, hi) && is_tail(*c) && is_tail(*d)).then_some(4),
        _ => None,
    }
}

// A code point, and how many bytes its character has.
#[derive(Clone, Copy, PartialEq, Eq, Debug)]
pub struct Character {
    pub code: u32,
    pub size: usize,
}

// The free bits of the bytes of a character.
#[tactic(auto, unfolding(crate::specs::Character::code_bits))]
fn code_bits(bytes: &[u8]) -> u32
    ensures { result ≡ code_bits (length bytes.now) bytes.now }
{
    match bytes {
        [a] => u32::from(*a),
        [a, b] => u32::from(a % 32) * 64 + u32::from(b % 64),
        [a, b, c] => u32::from(a % 16) * 4096 + u32::from(b % 64) * 64 + u32::from(c % 64),
        [a, b, c, d] => {
            u32::from(a % 8) * 262144
                + u32::from(b % 64) * 4096
                + u32::from(c % 64) * 64
                + u32::from(d % 64)
        }
        _ => 0,
    }
}

// The character at the front of a slice.
#[tactic(auto, using(crate::proofs::Codes::decoding))]
pub fn decode(s: &[u8]) -> Option<Character>
    ensures { result ≡ decode_of s.now }
{
    let size = char_size(s)?;
    let code = code_bits(&s[..size]);
    Some(Character { code, size })
}

// At most four bytes: the first `len` of `bytes`. An array and a length: there is no heap.
#[derive(Clone, Copy, PartialEq, Eq, Debug)]
pub struct Encoded {
    pub bytes: [u8; 4],
    pub len: usize,
}

impl Encoded {
    // The bytes as a slice.
    pub fn as_slice(&self) -> &[u8]
        requires { self.now.len ≤ 4 }
        ensures { result.now ≡ octets_of self.now }
    {
        &self.bytes[..self.len]
    }

    // Stores the bytes in `out` from `p` on. By a test for each of the four: of a loop over `len` the compiler makes a call of the C library.
    pub fn put(self, out: &mut [u8], p: usize)
        requires { (self.len ≤ 4) × (p + self.len ≤ length out.old) }
        ensures { out.new ≡ sets out.old p (octets_of self) }
    {
        for k in 0..4 {
            if k < self.len {
                out[p + k] = self.bytes[k];
            }
        }
    }
}

// The byte after the first that has the lowest six bits.
fn tail_of(bits: u32) -> u8
    ensures { result ≡ 0x80 + bits % 64 }
{
    // A cast, as those of `encode`: it is proved to fit, and `u8::try_from` would add a case that cannot come.
    (0x80 + bits % 64) as u8
}

// The bytes of a code point, and 0 past them. Not by `char::encode_utf8`, whose bytes laws would have to show to be those of the definition.
#[tactic(auto, unfolding(crate::specs::Character::encode_of), using(std::proofs::lemmas::Bool::Decides::nat_tests))]
pub fn encode(code: u32) -> Encoded
    requires { code ≤ 0x10FFFF }
    ensures { result ≡ encoded (encode_of code) }
{
    if code < 0x80 {
        let bytes = [code as u8, 0, 0, 0];
        return Encoded { bytes, len: 1 };
    }
    if code < 0x800 {
        let bytes = [(0xC0 + code / 64) as u8, tail_of(code), 0, 0];
        return Encoded { bytes, len: 2 };
    }
    if code < 0x10000 {
        let first = (0xE0 + code / 4096) as u8;
        let bytes = [first, tail_of(code / 64), tail_of(code), 0];
        return Encoded { bytes, len: 3 };
    }
    let first = (0xF0 + code / 262144) as u8;
    let bytes = [
        first,
        tail_of(code / 4096),
        tail_of(code / 64),
        tail_of(code),
    ];
    Encoded { bytes, len: 4 }
}

// Whether a code point is White_Space.
#[tactic(auto, using(crate::proofs::Codes::white_law))]
fn is_white(code: u32) -> bool
    ensures { result ≡ is_white code }
{
    // By `<=`: `matches!` leaves eight goals open, `contains` one, and of `char::is_whitespace` laws would have to show that it is the definition.
    ((0x0009 <= code) & (code <= 0x000D))
        | (code == 0x0020)
        | (code == 0x0085)
        | (code == 0x00A0)
        | (code == 0x1680)
        | ((0x2000 <= code) & (code <= 0x200A))
        | ((0x2028 <= code) & (code <= 0x2029))
        | (code == 0x202F)
        | (code == 0x205F)
        | (code == 0x3000)
}

// The length of the White_Space character at the front of a slice.
#[tactic(auto, using(crate::proofs::Codes::whitening))]
pub fn white_size(s: &[u8]) -> Option<usize>
    ensures { result ≡ nonzero (white_size s.now) }
{
    let found = decode(s)?;
    is_white(found.code).then_some(found.size)
}
