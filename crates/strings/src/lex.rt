// The token that a string literal is, and its decoded bytes. The opening quote is the first byte of the slice.
ghost use Rattle.std.specs.Prelude.{◌≡◌, Some, None, MatchOption, ◌+◌, ◌≤◌, ◌<◌, length};
ghost use Rattle.base.specs.Choice.{pick};
ghost use Rattle.utf8.specs.State.{is_between};
ghost use Rattle.token.specs.declared.kind.TokenKind.TheVariants as K;
ghost use Rattle.token.specs.declared.reason.Reason.TheVariants as R;
ghost use Rattle.lexeme.specs.Lexeme.{extent, illegal_reported};
ghost use Rattle.std.proofs.lemmas.List.Edits.{sets};
ghost use Rattle.utf8.specs.Grammar.{Octets};
ghost use Rattle.strings.specs.Literal.{literal_of, end_reason, end_detail, literal_end, lex_string};
ghost use Rattle.strings.specs.Helpers.{Sized};

use crate::literal::{End, Literal, Measure, Step, ordinary_end, put_simple, step_at};
use crate::notes::end_report;
use lexeme::{Lexeme, Mode};
use token::kind::TokenKind;
use token::reason::Reason;
use utf8::check::char_end;
use utf8::state::State;

// The reason that an ending gives a strict literal. Beside `end_report`, the tolerant one's: with the mode for a parameter, two arms of five would test it.
#[tactic(auto, unfolding(crate::specs::Literal::end_reason))]
fn end_reason(end: End) -> Option<Reason>
    ensures { result ≡ end_reason end }
{
    match end {
        End::Closed => None,
        End::AtNewline => Some(Reason::NewlineInString),
        End::Cut => Some(Reason::OpenEscape),
        End::Open => Some(Reason::OpenString),
        End::Bad(escape) => Some(escape.reason),
    }
}

// The detail of an ending.
#[tactic(auto, unfolding(crate::specs::Literal::end_detail))]
fn end_detail(end: End) -> usize
    ensures { result ≡ end_detail end }
{
    match end {
        End::Closed | End::AtNewline | End::Cut | End::Open => 0,
        End::Bad(escape) => escape.detail(),
    }
}

// Where an ending leaves the token's end: an unknown escape's after the character that its letter begins.
#[tactic(auto, unfolding(crate::specs::Literal::literal_end))]
fn literal_end(s: &[u8], end: End, stop: usize) -> usize
    ensures { result ≡ literal_end s.now end stop }
{
    match end {
        End::Bad(escape) if escape.reason.is_unknown_escape() => char_end(s, stop),
        _ => stop,
    }
}

// The reason that makes a literal Illegal whose bytes are not UTF-8.
fn utf8_reason(state: State) -> Option<Reason>
    ensures { result ≡ pick (is_between state) None (Some R.StringNotUtf8) }
{
    (!state.is_between()).then_some(Reason::StringNotUtf8)
}

// The token of what is measured: a String, or Illegal for its reason.
fn token_for(s: &[u8], m: Measure, reason: Option<Reason>, reports: usize) -> Lexeme
    ensures { MatchOption
        reason
        (result ≡ extent K.String m.stop 0 m.count reports)
        (λ r. result ≡ illegal_reported r (end_detail m.end) (literal_end s.now m.end m.stop) reports) }
{
    match reason {
        None => Lexeme::extent(TokenKind::String, m.stop, 0, m.count, reports),
        Some(reason) => Lexeme::illegal_reported(
            reason,
            end_detail(m.end),
            literal_end(s, m.end, m.stop),
            reports,
        ),
    }
}

// The string literal at the front of a slice. A strict literal's ending goes before its bytes; a tolerant one's is reported.
pub fn lex_string(s: &[u8], mode: Mode) -> Lexeme
    requires { (0 < length s.now) × Octets s.now }
    ensures { result ≡ lex_string mode s.now }
{
    let m = Literal { text: s }.measure(mode);
    let bytes = utf8_reason(m.state);
    match mode {
        Mode::Strict => token_for(s, m, end_reason(m.end).or(bytes), 0),
        Mode::Tolerant => {
            let reported = usize::from(end_report(m.end).is_some());
            token_for(s, m, bytes, m.reports + reported)
        }
    }
}

// Writes what the literal stands for from `place` on. It takes `len` bytes of text and stands for `size` bytes. An escape takes more bytes of
// text than it stands for, so a strict literal, which is closed, has none from where on there is as much text as there are bytes to write.
// `size`, `out` and `place` stay three, as lexer hands them on; a slice of `out` that shrinks would be lent anew at each turn beside that offset.
pub fn put_string(s: &[u8], mode: Mode, len: usize, size: usize, out: &mut [u8], place: usize)
    requires { (0 < length s.now) × (place + size ≤ length out.old) × Sized mode s.now len size }
    ensures { out.new ≡ sets out.old place (literal_of mode s.now).bytes }
{
    let strict = mode == Mode::Strict;
    let until = place + size;
    let mut i = 1;
    let mut p = place;
    // A `loop`: a step is as long as what was found.
    loop {
        let left = until - p;
        if strict & (left + 1 == len - i) {
            let end = i + left;
            base::copy(out, p, &s[i..end]);
            return;
        }
        let e = ordinary_end(s, i);
        let n = e - i;
        base::copy(out, p, &s[i..e]);
        p += n;
        if base::peek(s, e) == b'"' {
            return;
        }
        let escapes = put_simple(&s[e..], &mut out[p..]);
        if escapes != 0 {
            p += escapes;
            i = e + 2 * escapes;
            continue;
        }
        let st = step_at(s, e, mode);
        match st {
            Step::Go {
                encoded,
                used,
                reason: _,
            } => {
                encoded.put(out, p);
                p += encoded.len;
                i = e + used;
            }
            Step::Stop { end: _, stop: _ } => {
                return;
            }
        }
    }
}
