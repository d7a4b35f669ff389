// What a token lays into the string buffer and the report slice.
ghost use Rattle.std.specs.Prelude.{◌≡◌, ◌+◌, ◌≤◌, length, drop};
ghost use Rattle.std.proofs.lemmas.List.Edits.{sets};
ghost use Rattle.lexeme.specs.Helpers.{notes_numbers};
ghost use Rattle.lexer.specs.Reading.{string_in, notes_in};
ghost use Rattle.lexer.specs.Helpers.{start_reason, StringFront, ReportRoom};

use crate::reading::{Reading, Settings};
use base::peek;
use lexeme::{Mode, put_report};
use scan::bytes::bytes_reason;
use strings::notes::put_string_notes;
use token::place::Place;
use token::reason::Reason;
use triple_strings::lex::put_triple_string;
use triple_strings::quotes::at_quotes;

// Writes the decoded bytes of the String at the front of a text, which takes `len` bytes and stands for `size` bytes.
pub fn put_string(s: &[u8], mode: Reading, len: usize, size: usize, out: &mut [u8], place: usize)
    requires { StringFront mode s.now len size × (place + size ≤ length out.old) }
    ensures { out.new ≡ sets out.old place (string_in mode s.now) }
{
    if at_quotes(s) {
        put_triple_string(s, out, place);
        return;
    }
    strings::lex::put_string(s, Mode::from(mode), len, size, out, place);
}

// The reason of the one report of the token at the front of a text, which stands at its start: of an open block comment, an open bytes literal or an open
// triple-quoted string. None where the reports are those of a string of one line.
#[tactic(auto, unfolding(crate::specs::Helpers::start_reason))]
fn start_reason(s: &[u8], limit: usize) -> Option<Reason>
    ensures { result ≡ start_reason limit s.now }
{
    match peek(s, 0) {
        b'/' => Some(Reason::OpenBlockComment),
        b'b' => bytes_reason(s, limit),
        _ if at_quotes(s) => Some(Reason::OpenTripleString),
        _ => None,
    }
}

// Writes the reports of the token that starts at a place of the text, of which there are some.
pub fn put_reports(text: &[u8], start: Place, how: Settings, out: &mut [i64], at: usize)
    requires { ReportRoom how.mode how.limit text.now start (length out.old) at }
    ensures { out.new ≡ sets out.old at (notes_numbers text.now start.offset (notes_in how.mode how.limit (drop start.offset text.now))) }
{
    match start_reason(&text[start.offset..], how.limit) {
        Some(reason) => put_report(start, reason.number(), 0, out, at),
        None => put_string_notes(text, start, Mode::from(how.mode), out, at),
    }
}
