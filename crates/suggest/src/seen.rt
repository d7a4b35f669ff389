// What the strict reader sees in a text, without a reading.
ghost use Rattle.std.specs.Prelude.{◌≡◌};
ghost use Rattle.suggest.specs.Helpers.{starts_number, seen_by, seen_of};

use base::class::is_digit;
use base::peek;
use base::runs::reach_run;
use lexeme::Lexeme;
use lexer::lex::lex_in;
use lexer::reading::{Reading, Settings};
use scan::run::Blank;

// Whether a byte can begin a duration.
fn starts_number(b: u8) -> bool
    ensures { result ≡ starts_number b }
{
    is_digit(b) | (b == b'-')
}

// The nanoseconds of the one Duration that is seen where this token is the first and nothing but blanks is left, or something else is.
fn see_by(x: Lexeme, blank: bool) -> Option<i64>
    ensures { result ≡ seen_by x blank }
{
    (blank & x.kind.is_duration()).then_some(x.nanos)
}

// The nanoseconds of the one Duration that is seen in a text, if there are but blanks before and after it. The number is read by the lexer of all tokens,
// which chooses anew: called from here too, the lexer of numbers would no longer be a part of that one, and every reading would pay for it.
pub fn see(text: &[u8]) -> Option<i64>
    ensures { result ≡ seen_of text.now }
{
    let start = reach_run(Blank, text, 0);
    if !starts_number(peek(text, start)) {
        return None;
    }
    let how = Settings {
        mode: Reading::Strict,
        limit: 0,
    };
    let x = lex_in(&text[start..], how);
    let end = start + x.len;
    see_by(x, reach_run(Blank, text, end) == text.len())
}
