// The token at the front of the rest of a text.
ghost use Rattle.std.specs.Prelude.{◌≡◌, ◌<◌, length};
ghost use Rattle.lexer.specs.Lexer.{class_at, lex_by};
ghost use Rattle.lexer.specs.Reading.{mode_of, lexeme_in};
ghost use Rattle.lexer.specs.Helpers.{FromQuote};

use crate::class::{Class, classify};
use crate::reading::Settings;
use lexeme::{Lexeme, Mode};
use scan::bytes::lex_bytes;
use scan::comment::{lex_block_comment, lex_line_comment};
use scan::name::{lex_directive, lex_ident};
use scan::number::lex_number;
use scan::other::lex_other;
use strings::lex::lex_string;
use token::kind::TokenKind;
use triple_strings::lex::lex_triple_string;

// The token of a class, at the front of s.
#[tactic(auto, using(crate::proofs::FirstBytes::triple_long, crate::proofs::FirstBytes::quote_first), unfolding(crate::specs::Lexer::lex_by))]
fn lex_by(class: Class, s: &[u8], how: Settings) -> Lexeme
    requires { (0 < length s.now) × (class ≡ class_at s.now) × FromQuote s.now }
    ensures { result ≡ lex_by class (mode_of how.mode) how.limit s.now }
{
    let mode = Mode::from(how.mode);
    match class {
        Class::Newline => Lexeme::bare(TokenKind::Newline, 1),
        Class::LineComment => lex_line_comment(s),
        Class::BlockComment => lex_block_comment(s, mode),
        Class::Triple => lex_triple_string(s, mode),
        Class::Quote => lex_string(s, mode),
        Class::Bytes => lex_bytes(s, mode, how.limit),
        Class::Single(kind) => Lexeme::whole(kind, 1),
        Class::Directive => lex_directive(s),
        Class::Number => lex_number(s),
        Class::Name => lex_ident(s),
        Class::Other => lex_other(s),
    }
}

// The token at the front of a text that starts with no blank.
#[tactic(auto, unfolding(crate::specs::Lexer::lexeme_of, crate::specs::Reading::lexeme_in))]
pub fn lex_in(s: &[u8], how: Settings) -> Lexeme
    requires { FromQuote s.now }
    ensures { result ≡ lexeme_in how.mode how.limit s.now }
{
    if s.len() == 0 {
        return Lexeme::bare(TokenKind::Eof, 0);
    }
    let class = classify(s);
    lex_by(class, s, how)
}
