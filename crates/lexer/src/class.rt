// Which lexer a token's first bytes choose.
ghost use Rattle.std.specs.Prelude.{◌≡◌};
ghost use Rattle.lexer.specs.Lexer.{class_at};
ghost use Rattle.lexer.specs.Helpers.{mark_of, single_of};

use base::class::{is_digit, is_ident_start};
use base::peek;
use token::kind::TokenKind;

#[derive(Clone, Copy, PartialEq, Eq, Debug)]
pub enum Class {
    Newline,
    LineComment,
    BlockComment,
    // Three quotes.
    Triple,
    Quote,
    // `b` and a quote.
    Bytes,
    // A token of one byte.
    Single(TokenKind),
    Directive,
    // A sign or a digit.
    Number,
    Name,
    Other,
}

// The kind of a token of one byte. Kept a function of its own by the compiler, it costs 3 instructions a byte on boats.
#[inline(always)]
#[tactic(auto, unfolding(crate::specs::Helpers::single_of))]
fn single(b: u8) -> Option<TokenKind>
    ensures { result ≡ single_of b }
{
    match b {
        b'{' => Some(TokenKind::LBrace),
        b'}' => Some(TokenKind::RBrace),
        b'[' => Some(TokenKind::LBracket),
        b']' => Some(TokenKind::RBracket),
        b'(' => Some(TokenKind::LParen),
        b')' => Some(TokenKind::RParen),
        b'=' => Some(TokenKind::Equals),
        b':' => Some(TokenKind::Colon),
        b',' => Some(TokenKind::Comma),
        _ => None,
    }
}

// The kind of the mark that a byte is: a newline or a token of one byte.
#[tactic(auto, unfolding(crate::specs::Helpers::mark_of))]
pub fn mark(b: u8) -> Option<TokenKind>
    ensures { result ≡ mark_of b }
{
    if b == b'\n' {
        Some(TokenKind::Newline)
    } else {
        single(b)
    }
}

// The class of the token at the front of s. The bytes after the first are looked at only where they count; as slice patterns, which test the length first,
// four goals stay open.
#[tactic(auto, unfolding(crate::specs::Lexer::class_at, crate::specs::Lexer::class_of, crate::specs::Helpers::single_of))]
pub fn classify(s: &[u8]) -> Class
    ensures { result ≡ class_at s.now }
{
    let a = peek(s, 0);
    match a {
        b'\n' => Class::Newline,
        b'#' => Class::LineComment,
        b'/' => match peek(s, 1) {
            b'/' => Class::LineComment,
            b'*' => Class::BlockComment,
            _ => Class::Other,
        },
        b'"' if (peek(s, 1) == b'"') & (peek(s, 2) == b'"') => Class::Triple,
        b'"' => Class::Quote,
        b'b' => match peek(s, 1) {
            b'"' => Class::Bytes,
            _ => Class::Name,
        },
        b'@' => Class::Directive,
        b'+' | b'-' => Class::Number,
        _ => match single(a) {
            Some(kind) => Class::Single(kind),
            None if is_digit(a) => Class::Number,
            None if is_ident_start(a) => Class::Name,
            None => Class::Other,
        },
    }
}
