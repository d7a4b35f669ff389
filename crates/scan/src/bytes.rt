// Bytes literals.
ghost use Rattle.std.specs.Prelude.{◌≡◌, ◌<◌, drop};
ghost use Rattle.scan.specs.Bytes.{bytes_stop, bytes_value, open_bytes_literal, lex_bytes};
ghost use Rattle.scan.specs.Helpers.{stop_reason};

use lexeme::{Lexeme, Mode};
use token::kind::TokenKind;
use token::reason::Reason;
use utf8::check::char_end;

// Where a bytes literal stops, so many bytes after its opening quote. The number beside an enum would be no plainer: each case reads it another way.
#[derive(Clone, Copy)]
pub enum Stop {
    // The limit is passed.
    Over(usize),
    // The closing quote.
    Closed(usize),
    // A newline.
    Newline(usize),
    // The end of the text.
    Open(usize),
}

// Where the bytes literal that begins with `b"` stops.
#[tactic(auto, using(std::proofs::lemmas::Bool::Decides::nat_tests, crate::proofs::Stops::stop_turn, crate::proofs::Stops::stop_end))]
fn bytes_stop(s: &[u8], limit: usize) -> Stop
    ensures { result ≡ bytes_stop limit 0 (drop 2 s.now) }
{
    let body = s.get(2..).unwrap_or(&[]);
    for (n, b) in body.iter().enumerate() {
        let over = limit < n / 4 * 3;
        if over {
            return Stop::Over(n);
        }
        if *b == b'"' {
            return Stop::Closed(n);
        }
        if *b == b'\n' {
            return Stop::Newline(n);
        }
    }
    Stop::Open(body.len())
}

// A literal of `len` bytes with `n` bytes between its quotes.
fn bytes_value(len: usize, n: usize, reports: usize) -> Lexeme
    ensures { result ≡ bytes_value len n reports }
{
    let value = if n == 0 { len } else { 2 };
    Lexeme::extent(TokenKind::Bytes, len, value, n, reports)
}

// A literal without its closing quote, of `n` bytes after its opening quote.
fn open_bytes(mode: Mode, n: usize) -> Lexeme
    requires { n < 0x8000000000000000 }
    ensures { result ≡ open_bytes_literal mode n }
{
    match mode {
        Mode::Strict => Lexeme::illegal(Reason::OpenBytes, 0, n + 2),
        Mode::Tolerant => bytes_value(n + 2, n, 1),
    }
}

// A bytes literal, which begins with `b"`.
#[tactic(auto, using(crate::proofs::Stops::stop_within), unfolding(crate::specs::Bytes::lex_bytes))]
pub fn lex_bytes(s: &[u8], mode: Mode, limit: usize) -> Lexeme
    ensures { result ≡ lex_bytes mode limit s.now }
{
    match bytes_stop(s, limit) {
        Stop::Over(n) => Lexeme::illegal(Reason::BytesOverLimit, 0, char_end(s, n + 2)),
        Stop::Closed(n) => bytes_value(n + 3, n, 0),
        Stop::Newline(n) | Stop::Open(n) => open_bytes(mode, n),
    }
}

// The reason of the report that the tolerant reader makes of the literal at the front of `s`.
#[tactic(auto, unfolding(crate::specs::Helpers::stop_reason))]
pub fn bytes_reason(s: &[u8], limit: usize) -> Option<Reason>
    ensures { result ≡ stop_reason (bytes_stop limit 0 (drop 2 s.now)) }
{
    match bytes_stop(s, limit) {
        Stop::Over(_) | Stop::Closed(_) => None,
        Stop::Newline(_) => Some(Reason::BytesEndedAtNewline),
        Stop::Open(_) => Some(Reason::OpenBytes),
    }
}
