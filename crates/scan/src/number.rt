// Numbers, timestamps and durations.
ghost use Rattle.std.specs.Prelude.{◌≡◌, ◌+◌, length};
ghost use Rattle.base.specs.Bytes.{byte};
ghost use Rattle.go_duration.specs.Parse.{parse_of};
ghost use Rattle.rfc3339.specs.Instant.{date_of};
ghost use Rattle.scan.specs.Number.{lex_precision, past_point, is_sign, is_exponent, past_sign, past_exponent, past_fraction, at_duration_unit, duration_by};
ghost use Rattle.scan.specs.Number.{goes_on_float, number_kind, value_end, lex_tail, timestamp_by, lex_digits, at_inf, lex_number};

use crate::run::{Stamp, past_units};
use base::class::{begins_unit, is_digit, is_ident_part};
use base::digits::digits_end;
use base::peek;
use base::runs::reach_run;
use go_duration::parse::parse;
use lexeme::Lexeme;
use token::kind::TokenKind;
use token::reason::Reason;

// Offsets count from the token's first byte, as `pos` of lexer.rs does: slices of the rest would need each length added again. They may be past the end.

// A number that ends at `end`, with the precision that follows it or none.
#[tactic(auto, using(base::proofs::Reaches::reach_ge), unfolding(crate::specs::Number::lex_precision))]
fn lex_precision(kind: TokenKind, s: &[u8], end: usize) -> Lexeme
    ensures { result ≡ lex_precision kind s.now end }
{
    if peek(s, end) == b'p' && is_digit(peek(s, end + 1)) {
        Lexeme::precise(kind, end, digits_end(s, end + 1))
    } else {
        Lexeme::whole(kind, end)
    }
}

// Past a point and digits or none.
#[tactic(auto, unfolding(crate::specs::Number::past_point))]
fn past_point(s: &[u8], i: usize) -> usize
    ensures { result ≡ past_point s.now i }
{
    if peek(s, i) == b'.' {
        digits_end(s, i + 1)
    } else {
        i
    }
}

// A sign.
fn is_sign(a: u8) -> bool
    ensures { result ≡ is_sign a }
{
    (a == b'+') | (a == b'-')
}

// The letter before an exponent.
fn is_exponent(a: u8) -> bool
    ensures { result ≡ is_exponent a }
{
    (a == b'e') | (a == b'E')
}

// Past a sign or nothing.
#[tactic(auto, unfolding(crate::specs::Number::past_sign))]
fn past_sign(s: &[u8], i: usize) -> usize
    ensures { result ≡ past_sign s.now i }
{
    if is_sign(peek(s, i)) { i + 1 } else { i }
}

// Past an exponent or nothing.
#[tactic(auto, unfolding(crate::specs::Number::past_exponent))]
fn past_exponent(s: &[u8], i: usize) -> usize
    ensures { result ≡ past_exponent s.now i }
{
    if is_exponent(peek(s, i)) {
        digits_end(s, past_sign(s, i + 1))
    } else {
        i
    }
}

// Past a point and at least one digit, or nothing.
#[tactic(auto, using(crate::proofs::Parts::from_second), unfolding(crate::specs::Number::past_fraction))]
fn past_fraction(s: &[u8], i: usize) -> usize
    ensures { result ≡ past_fraction s.now i }
{
    if peek(s, i) == b'.' && is_digit(peek(s, i + 1)) {
        digits_end(s, i + 2)
    } else {
        i
    }
}

// Whether a unit begins at `f`, `µs` with U+00B5 too.
#[tactic(auto, using(crate::proofs::Parts::units))]
fn at_duration_unit(s: &[u8], f: usize) -> bool
    ensures { result ≡ at_duration_unit (byte s.now f) (byte s.now (f + 1)) }
{
    let a = peek(s, f);
    begins_unit(a) && ((a != 0xC2) | (peek(s, f + 1) == 0xB5))
}

// The duration that a run of units is.
fn duration_of(run: &[u8]) -> Lexeme
    ensures { result ≡ duration_by (parse_of run.now) (length run.now) }
{
    match parse(run) {
        Some(nanos) => Lexeme::duration(run.len(), nanos),
        None => Lexeme::illegal(Reason::BadDuration, 0, run.len()),
    }
}

// Whether a number goes on with the byte `a` as a float.
fn goes_on_float(a: u8) -> bool
    ensures { result ≡ goes_on_float a }
{
    (a == b'.') | is_exponent(a)
}

// The kind of a number.
fn number_kind(float: bool) -> TokenKind
    ensures { result ≡ number_kind float }
{
    if float {
        TokenKind::Float
    } else {
        TokenKind::Int
    }
}

// Where the value of a number ends whose digits and fraction end at `f`.
#[tactic(auto, unfolding(crate::specs::Number::value_end))]
fn value_end(s: &[u8], f: usize, float: bool) -> usize
    ensures { result ≡ value_end s.now f float }
{
    if float {
        past_exponent(s, past_point(s, f))
    } else {
        f
    }
}

// A number whose digits end at `n` and whose fraction ends at `f`.
#[tactic(auto, using(crate::proofs::Parts::units), unfolding(crate::specs::Number::lex_tail, crate::specs::Number::lex_duration))]
fn lex_tail(s: &[u8], n: usize, f: usize) -> Lexeme
    ensures { result ≡ lex_tail s.now n f }
{
    if at_duration_unit(s, f) {
        return duration_of(&s[..past_units(s, f)]);
    }
    let float = (n < f) | goes_on_float(peek(s, f));
    lex_precision(number_kind(float), s, value_end(s, f, float))
}

// The timestamp that a run is.
fn timestamp_of(run: &[u8]) -> Lexeme
    ensures { result ≡ timestamp_by (date_of run.now) (length run.now) }
{
    match rfc3339::parse::parse(run) {
        Some(_) => Lexeme::whole(TokenKind::Timestamp, run.len()),
        None => Lexeme::illegal(Reason::BadTimestamp, 0, run.len()),
    }
}

// The digits from `at` on, and what follows them; four unsigned digits before `-` start a timestamp.
#[tactic(auto, using(crate::proofs::Parts::stamp_size), unfolding(crate::specs::Number::lex_digits, crate::specs::Number::lex_timestamp))]
fn lex_digits(s: &[u8], at: usize) -> Lexeme
    ensures { result ≡ lex_digits s.now at }
{
    let n = digits_end(s, at);
    if at == 0 && n == 4 && peek(s, n) == b'-' {
        return timestamp_of(&s[..reach_run(Stamp, s, n)]);
    }
    lex_tail(s, n, past_fraction(s, n))
}

// Whether `inf` stands after the sign, and no name goes on from there.
#[tactic(auto, unfolding(crate::specs::Number::at_inf))]
fn at_inf(s: &[u8]) -> bool
    ensures { result ≡ at_inf s.now }
{
    (peek(s, 1) == b'i') & (peek(s, 2) == b'n') & (peek(s, 3) == b'f') & !is_ident_part(peek(s, 4))
}

// What begins with a sign or a digit.
#[tactic(auto, unfolding(crate::specs::Number::lex_number))]
pub fn lex_number(s: &[u8]) -> Lexeme
    ensures { result ≡ lex_number s.now }
{
    let a = peek(s, 0);
    let sign = is_sign(a);
    if sign {
        if at_inf(s) {
            return Lexeme::whole(TokenKind::Float, 4);
        }
        if a == b'+' {
            return Lexeme::illegal(Reason::PlusWithoutInf, 0, 1);
        }
        if !is_digit(peek(s, 1)) {
            return Lexeme::illegal(Reason::MinusWithoutDigit, 0, 1);
        }
    }
    lex_digits(s, usize::from(sign))
}
