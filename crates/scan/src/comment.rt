// Comments.
ghost use Rattle.std.specs.Prelude.{◌≡◌};
ghost use Rattle.scan.specs.Comment.{lex_line_comment, open_end, open_comment, lex_block_comment};

use crate::run::{Body, Line};
use base::runs::reach_long;
use lexeme::{Lexeme, Mode};
use token::kind::TokenKind;
use token::reason::Reason;
use utf8::check::char_end;

// A comment that begins with `#` or `//`.
#[tactic(auto, unfolding(crate::specs::Comment::lex_line_comment))]
pub fn lex_line_comment(s: &[u8]) -> Lexeme
    ensures { result ≡ lex_line_comment s.now }
{
    Lexeme::whole(TokenKind::Comment, reach_long(Line, s, 0))
}

// Where strict reading stops in an open block comment.
#[tactic(auto, unfolding(crate::specs::Comment::open_end))]
fn open_end(s: &[u8]) -> usize
    ensures { result ≡ open_end s.now }
{
    char_end(s, s.len().saturating_sub(1).max(2))
}

// A block comment that the text does not close.
#[tactic(auto, unfolding(crate::specs::Comment::open_comment))]
fn open_comment(s: &[u8], mode: Mode) -> Lexeme
    ensures { result ≡ open_comment mode s.now }
{
    match mode {
        Mode::Strict => Lexeme::illegal(Reason::OpenBlockComment, 0, open_end(s)),
        Mode::Tolerant => Lexeme::extent(TokenKind::Comment, s.len(), 0, s.len(), 1),
    }
}

// A comment that begins with `/*`.
#[tactic(auto, unfolding(crate::specs::Comment::lex_block_comment, crate::specs::Comment::body_end))]
pub fn lex_block_comment(s: &[u8], mode: Mode) -> Lexeme
    ensures { result ≡ lex_block_comment mode s.now }
{
    let end = reach_long(Body, s, 2);
    if end < s.len() {
        return Lexeme::whole(TokenKind::Comment, end + 2);
    }
    open_comment(s, mode)
}
