// One step of a string literal.
ghost use Rattle.std.specs.Prelude.{◌≡◌, [], ◌∷◌, ◌+◌, ◌-◌, ◌*◌, ◌≤◌, ◌<◌, length, drop};
ghost use Rattle.utf8.specs.Character.{is_scalar};
ghost use Rattle.strings.specs.Decode.{letter_detail};
ghost use Rattle.strings.specs.Piece.{bad_escape, bytes_piece, byte_piece, hex_byte, hex_piece, oct_byte, oct_piece, code_piece, escape_piece, piece_of};

use crate::digit::{hex_val, oct_val, simple};
use token::reason::Reason;
use utf8::character::{Encoded, encode};

// Why an escape is bad, and its letter.
#[derive(Clone, Copy)]
pub struct BadEscape {
    pub reason: Reason,
    pub letter: u8,
}

impl BadEscape {
    fn of(reason: Reason, letter: u8) -> BadEscape
        ensures { result ≡ bad_escape reason letter }
    {
        BadEscape { reason, letter }
    }

    // The detail of its report: the letter, where the escape is unknown.
    #[tactic(auto, unfolding(crate::specs::Decode::letter_detail))]
    pub fn detail(self) -> usize
        ensures { (result ≡ letter_detail self.reason self.letter) × (result ≤ 255) }
    {
        if self.reason.is_unknown_escape() {
            usize::from(self.letter)
        } else {
            0
        }
    }
}

// What stands at the front of the rest of a literal, after the opening quote.
#[derive(Clone, Copy)]
pub enum Piece {
    // `used` bytes of text that stand for those of `encoded`.
    Bytes { encoded: Encoded, used: usize },
    // A bad escape, and how many bytes of text it takes.
    Bad { escape: BadEscape, used: usize },
    // The closing quote.
    Close,
    // A newline that is not escaped.
    Newline,
    // A backslash with nothing after it.
    Cut,
    // Nothing.
    Open,
}

// One byte, which stood in `used` bytes of the text.
fn one(b: u8, used: usize) -> Piece
    ensures { result ≡ bytes_piece (b ∷ []) used }
{
    let bytes = [b, 0, 0, 0];
    Piece::Bytes {
        encoded: Encoded { bytes, len: 1 },
        used,
    }
}

// A bad escape.
fn bad(escape: BadEscape, used: usize) -> Piece
    ensures { result ≡ Piece.Bad escape used }
{
    Piece::Bad { escape, used }
}

// Whether a number is a code point that UTF-8 encodes.
#[tactic(auto, unfolding(utf8::specs::Character::is_scalar))]
fn valid_rune(r: u32) -> bool
    ensures { result ≡ is_scalar r }
{
    (r <= 0x10FFFF) & !((0xD800 <= r) & (r <= 0xDFFF))
}

// The byte of an escape of four bytes of text, or a bad escape.
fn byte_escape(escape: BadEscape, byte: Option<u8>) -> Piece
    ensures { result ≡ byte_piece escape byte }
{
    match byte {
        Some(b) => one(b, 4),
        None => bad(escape, 2),
    }
}

// The byte of `\x` and two digits, t being the rest from the backslash on.
#[tactic(auto, unfolding(crate::specs::Piece::hex_byte))]
fn hex_byte(t: &[u8]) -> Option<u8>
    ensures { result ≡ hex_byte t.now }
{
    let h = hex_val(base::peek(t, 2))?;
    let l = hex_val(base::peek(t, 3))?;
    Some(h * 16 + l)
}

// The byte of a backslash, a digit from 0 to 3 and two octal digits.
#[tactic(auto, unfolding(crate::specs::Piece::oct_byte))]
fn oct_byte(t: &[u8], first: u8) -> Option<u8>
    requires { (48 ≤ first) × (first ≤ 51) }
    ensures { result ≡ oct_byte first t.now }
{
    let h = oct_val(base::peek(t, 2))?;
    let l = oct_val(base::peek(t, 3))?;
    Some((first - b'0') * 64 + h * 8 + l)
}

// `\u` or `\U` and n digits, of which l is the text. Good digits before a bad one are used up, but none where too few bytes are left. Inlined in any
// case: its answer would go through memory, stored in pieces and loaded whole, and strings of such escapes took up to a third more time.
#[inline(always)]
fn code_escape(l: &[u8], n: usize, escape: BadEscape) -> Piece
    requires { n ≤ 8 }
    ensures { result ≡ code_piece n escape l.now }
{
    if l.len() < n {
        return bad(escape, 2);
    }
    let mut r: u32 = 0;
    for (k, c) in l[..n].iter().enumerate() {
        let Some(d) = hex_val(*c) else {
            return bad(escape, k + 2);
        };
        r = r * 16 + u32::from(d);
    }
    if valid_rune(r) {
        return Piece::Bytes {
            encoded: encode(r),
            used: n + 2,
        };
    }
    bad(escape, n + 2)
}

// An escape: t begins with a backslash and one byte more.
#[tactic(auto, unfolding(crate::specs::Piece::escape_piece, crate::specs::Piece::hex_piece, crate::specs::Piece::oct_piece))]
fn escape(t: &[u8]) -> Piece
    requires { 1 < length t.now }
    ensures { result ≡ escape_piece t.now }
{
    let e = t[1];
    if let Some(b) = simple(e) {
        return one(b, 2);
    }
    match e {
        b'x' => byte_escape(BadEscape::of(Reason::BadX, e), hex_byte(t)),
        b'u' => code_escape(&t[2..], 4, BadEscape::of(Reason::BadU, e)),
        b'U' => code_escape(&t[2..], 8, BadEscape::of(Reason::BadCapitalU, e)),
        b'0'..=b'3' => byte_escape(BadEscape::of(Reason::BadOctal, e), oct_byte(t, e)),
        _ => bad(BadEscape::of(Reason::UnknownEscape, e), 2),
    }
}

// The step.
#[tactic(auto, unfolding(crate::specs::Piece::piece_of))]
pub fn next_piece(t: &[u8]) -> Piece
    ensures { result ≡ piece_of t.now }
{
    match t {
        [] => Piece::Open,
        [b'"', ..] => Piece::Close,
        [b'\n', ..] => Piece::Newline,
        [b'\\'] => Piece::Cut,
        [b'\\', ..] => escape(t),
        [c, ..] => one(*c, 1),
    }
}
