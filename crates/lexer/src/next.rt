// The next token from an offset of the text.
ghost use Rattle.std.specs.Prelude.{◌≡◌, ◌+◌, ◌≤◌, ◌<◌, eqb, length};
ghost use Rattle.base.specs.Choice.{pick};
ghost use Rattle.utf8.specs.Grammar.{Octets};
ghost use Rattle.token.specs.Place.{place_at};
ghost use Rattle.lexer.specs.Helpers.{mark_lexeme, Ending, Placing};
ghost use Rattle.lexer.specs.Token.{start_at, found_at, placed, string_size};

use crate::class::mark;
use crate::lex::lex_in;
use crate::reading::Settings;
use base::peek;
use base::runs::reach_run;
use lexeme::Lexeme;
use scan::run::Blank;
use token::kind::TokenKind;
use token::place::{Place, walk};
use token::reason::Reason;

// A token relative to its start, and where it starts.
#[derive(Clone, Copy)]
pub struct Found {
    pub start: usize,
    pub lexeme: Lexeme,
}

// A token with its places. Its value is `size` bytes of the text from `value` on, but a String's lies in the string buffer; its precision is
// `digits` bytes of the text from `precision` on.
#[derive(Clone, Copy)]
pub struct Token {
    pub kind: TokenKind,
    pub reason: Option<Reason>,
    pub detail: usize,
    pub start: Place,
    pub end: Place,
    pub value: usize,
    pub size: usize,
    pub precision: usize,
    pub digits: usize,
    pub nanos: i64,
    pub reports: usize,
}

// Where the token after an offset starts: past the blanks.
#[tactic(auto, unfolding(crate::specs::Token::start_at))]
pub(crate) fn skip_spaces(text: &[u8], at: usize) -> usize
    ensures { result ≡ start_at text.now at }
{
    reach_run(Blank, text, at)
}

// The lexeme of a mark: a newline has no value, any other mark is its own.
#[tactic(auto, unfolding(crate::specs::Helpers::mark_lexeme))]
pub(crate) fn mark_lexeme(kind: TokenKind) -> Lexeme
    ensures { result ≡ mark_lexeme kind }
{
    if kind.is_newline() {
        return Lexeme::bare(kind, 1);
    }
    Lexeme::whole(kind, 1)
}

// The token after an offset, relative to its start. Most tokens are marks, which need no lexer. An offset and no slice: it is what the places of
// tokens count by, and where the search for the end of the blanks goes on.
pub fn next_lexeme(text: &[u8], at: usize, how: Settings) -> Found
    requires { (at ≤ length text.now) × Octets text.now }
    ensures { result ≡ found_at how.mode how.limit text.now at }
{
    let start = skip_spaces(text, at);
    if let Some(kind) = mark(peek(text, start)) {
        let lexeme = mark_lexeme(kind);
        return Found { start, lexeme };
    }
    let lexeme = lex_in(&text[start..], how);
    Found { start, lexeme }
}

// Where a precision stands in the text, or 0 where there is none, which is the number that its record has.
#[tactic(auto, using(std::proofs::lemmas::Bool::Decides::nat_tests))]
fn precision_at(start: usize, precision: usize, digits: usize) -> usize
    requires { start + precision < 0x8000000000000000 }
    ensures { result ≡ pick (eqb digits 0) 0 (start + precision) }
{
    if digits == 0 {
        return 0;
    }
    start + precision
}

// The place where a token of a kind and length ends. Only some kinds can have a newline; the walk gets and gives a place of its own, so that
// the others' places stay in registers: without this, and the same in crate reading, boats take 52.78 instructions a byte.
#[tactic(auto, using(token::proofs::Places::flat_along))]
pub(crate) fn end_place(text: &[u8], start: Place, kind: TokenKind, len: usize) -> Place
    requires { Ending text.now start kind len }
    ensures { result ≡ place_at text.now (start.offset + len) }
{
    let to = start.offset + len;
    if kind.on_one_line() {
        let column = start.column + len;
        return Place {
            offset: to,
            column,
            ..start
        };
    }
    let from = Place {
        offset: start.offset,
        line: start.line,
        column: start.column,
    };
    let end = walk(text, from, to);
    Place {
        offset: end.offset,
        line: end.line,
        column: end.column,
    }
}

// A token between two places. The lexeme's fields are read one by one where they lie: a copy of it would wait until all of it is stored.
pub(crate) fn placed(start: Place, end: Place, x: Lexeme) -> Token
    requires { Placing start x }
    ensures { result ≡ placed start.offset start end x }
{
    let first = start.offset;
    let kind = x.kind;
    let precision = precision_at(first, x.precision, x.digits);
    let value = first + x.value;
    Token {
        kind,
        reason: x.reason,
        detail: x.detail,
        start,
        end,
        value,
        size: x.size,
        precision,
        digits: x.digits,
        nanos: x.nanos,
        reports: x.reports,
    }
}

// How many bytes a token lays into the string buffer.
#[tactic(auto, unfolding(crate::specs::Token::string_size))]
pub fn string_size(kind: TokenKind, size: usize) -> usize
    ensures { result ≡ string_size kind size }
{
    if kind.is_string() {
        return size;
    }
    0
}
