// Digits, and the escapes of one letter.
ghost use Rattle.std.specs.Prelude.{◌≡◌, ◌<◌, IfSome};
ghost use Rattle.strings.specs.Piece.{hex_of, oct_of, simple_of};

// The value of a hexadecimal digit.
#[tactic(auto, unfolding(crate::specs::Piece::hex_of))]
pub fn hex_val(c: u8) -> Option<u8>
    ensures is { result ≡ hex_of c }
    ensures digit { IfSome result (λ d. d < 16) }
{
    match c {
        b'0'..=b'9' => Some(c - b'0'),
        b'A'..=b'F' => Some(c - b'A' + 10),
        b'a'..=b'f' => Some(c - b'a' + 10),
        _ => None,
    }
}

// The value of an octal digit.
#[tactic(auto, unfolding(crate::specs::Piece::oct_of))]
pub fn oct_val(c: u8) -> Option<u8>
    ensures is { result ≡ oct_of c }
    ensures digit { IfSome result (λ d. d < 8) }
{
    match c {
        b'0'..=b'7' => Some(c - b'0'),
        _ => None,
    }
}

// The byte that an escape of one letter stands for. Not inlined, strings of escapes of several letters take a tenth more instructions.
#[tactic(auto, unfolding(crate::specs::Piece::simple_of))]
#[inline(always)]
pub fn simple(e: u8) -> Option<u8>
    ensures { result ≡ simple_of e }
{
    match e {
        b'"' | b'\\' | b'\'' | b'?' => Some(e),
        b'a' => Some(0x07),
        b'b' => Some(0x08),
        b'f' => Some(0x0C),
        b'n' => Some(b'\n'),
        b'r' => Some(b'\r'),
        b't' => Some(b'\t'),
        b'v' => Some(0x0B),
        _ => None,
    }
}
