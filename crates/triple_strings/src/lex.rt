// `lex_triple_string`: the triple-quoted string at the front of the rest of a text.
ghost use Rattle.std.specs.Prelude.{◌≡◌, ◌+◌, ◌≤◌, length};
ghost use Rattle.std.proofs.lemmas.List.Edits.{sets};
ghost use Rattle.triple_strings.specs.Dedent.{dedent};
ghost use Rattle.triple_strings.specs.Triple.{raw_bytes, open_triple_end, lex_triple_string};

use crate::dedent::Dedent;
use crate::quotes::find_quotes;
use lexeme::{Lexeme, Mode};
use token::kind::TokenKind;
use token::reason::Reason;
use utf8::check::char_end;

// Where the strict reader leaves an open one: two bytes before the end, not before the content, and after the character there.
#[tactic(auto, unfolding(crate::specs::Triple::open_triple_end))]
fn open_triple_end(s: &[u8]) -> usize
    ensures { result ≡ open_triple_end s.now }
{
    char_end(s, s.len().saturating_sub(2).max(3))
}

// The string at the front of `s`, which begins with three quotes.
#[tactic(auto, using(crate::proofs::RawParts::lexing))]
pub fn lex_triple_string(s: &[u8], mode: Mode) -> Lexeme
    requires { 3 ≤ length s.now }
    ensures { result ≡ lex_triple_string mode s.now }
{
    let n = find_quotes(&s[3..]);
    let e = n + 3;
    if e < s.len() {
        return Lexeme::extent(TokenKind::String, n + 6, 0, Dedent::of(&s[3..e]).len(), 0);
    }
    match mode {
        Mode::Strict => Lexeme::illegal(Reason::OpenTripleString, 0, open_triple_end(s)),
        Mode::Tolerant => Lexeme::extent(
            TokenKind::String,
            s.len(),
            0,
            Dedent::of(&s[3..e]).len(),
            1,
        ),
    }
}

// Writes the value of the string at the front of `s` from `place` on.
#[tactic(auto, using(crate::proofs::RawParts::places))]
pub fn put_triple_string(s: &[u8], out: &mut [u8], place: usize)
    requires { (3 ≤ length s.now) × (place + length (dedent (raw_bytes s.now)) ≤ length out.old) }
    ensures { out.new ≡ sets out.old place (dedent (raw_bytes s.now)) }
{
    let n = find_quotes(&s[3..]);
    let e = n + 3;
    Dedent::of(&s[3..e]).put(&mut out[place..]);
}
