// What one token lays into the three buffers.
ghost use Rattle.std.specs.Prelude.{◌≡◌, length, drop};
ghost use Rattle.std.proofs.lemmas.List.Edits.{sets};
ghost use Rattle.token.specs.Kind.{kind_number};
ghost use Rattle.token.specs.Layout.{record_numbers};
ghost use Rattle.lexeme.specs.Helpers.{notes_numbers};
ghost use Rattle.lexer.specs.Reading.{string_in, notes_in};
ghost use Rattle.reading.specs.Buffers.{record_of};
ghost use Rattle.reading.specs.Refusals.{room_of};
ghost use Rattle.reading.specs.Passes.{Few, RecordRoom, StringRoom, NotesRoom, TokenRoom, TokenPut, SameBuffers};

use crate::counts::Counts;
use crate::refusal::Refusal;
use lexer::next::{Token, string_size};
use lexer::put::{put_reports, put_string};
use lexer::reading::{Reading, Settings};
use token::layout::{RECORD_WIDTH, REPORT_WIDTH, Record};
use token::place::Place;
use token::reason::number_of;

// The number of a token's kind. A function of its own, so that its contract says that the kind alone decides it, wherever the token stands (must-fail
// `first_token_then_illegal`).
#[inline(always)]
fn kind_number(t: Token) -> usize
    ensures { result ≡ kind_number t.kind }
{
    t.kind.number()
}

// Stores the record of a token whose string starts at `value_at`: there is a String's value, any other's is in the text. The buffers' parts are filled one
// behind the other, so each of these functions gets the whole buffer and where its part begins, as `base::store` does.
#[inline(always)]
fn put_record(t: Token, value_at: usize, out: &mut [i64], i: usize)
    requires { RecordRoom value_at t (length out.old) i }
    ensures { out.new ≡ sets out.old i (record_numbers (record_of value_at t)) }
{
    let record = Record {
        kind: kind_number(t),
        reason: number_of(t.reason),
        detail: t.detail,
        start: t.start.offset,
        end: t.end.offset,
        line: t.start.line,
        column: t.start.column,
        value: if t.kind.is_string() {
            value_at
        } else {
            t.value
        },
        size: t.size,
        precision: t.precision,
        digits: t.digits,
        nanos: t.nanos,
    };
    base::store(out, i, &record.numbers());
}

// Writes the string of a token of the text. Most tokens have none, and for these nothing is called.
#[inline(always)]
fn put_value(text: &[u8], t: Token, mode: Reading, out: &mut [u8], at: usize)
    requires { StringRoom mode text.now t (length out.old) at }
    ensures { out.new ≡ sets out.old at (string_in mode (drop t.start.offset text.now)) }
{
    let size = string_size(t.kind, t.size);
    if size != 0 {
        let len = t.end.offset - t.start.offset;
        put_string(&text[t.start.offset..], mode, len, size, out, at);
    }
}

// Writes the reports of a token of the text, likewise.
#[inline(always)]
fn put_notes(text: &[u8], t: Token, how: Settings, out: &mut [i64], at: usize)
    requires { NotesRoom how.mode how.limit text.now t (length out.old) at }
    ensures { out.new ≡ sets out.old at (notes_numbers text.now t.start.offset (notes_in how.mode how.limit (drop t.start.offset text.now))) }
{
    if t.reports != 0 {
        // A place of its own, so that the token need not lie in memory: see `end_place` of lexer, where the number stands.
        let start = Place {
            offset: t.start.offset,
            line: t.start.line,
            column: t.start.column,
        };
        put_reports(text, start, how, out, at);
    }
}

// The three lent buffers of a reading. The public calls take them apart, as the C interface hands them over: a caller that makes the struct has to know
// that it keeps the loans.
#[derive(Drop)]
pub struct Buffers<'a> {
    pub tokens: &'a mut [i64],
    pub strings: &'a mut [u8],
    pub reports: &'a mut [i64],
}

impl Buffers<'_> {
    // Checks 4, 5 and 6, in this order, of buffers for so much.
    #[tactic(auto, unfolding(crate::specs::Refusals::room_of))]
    pub fn hold(&self, counts: Counts) -> Result<(), Refusal>
        requires { Few counts }
        ensures { result ≡ room_of counts (length self.now.tokens.now) (length self.now.strings.now) (length self.now.reports.now) }
    {
        if self.tokens.len() < counts.tokens * RECORD_WIDTH {
            return Err(Refusal::TokensShort);
        }
        if self.strings.len() < counts.strings {
            return Err(Refusal::StringsShort);
        }
        if self.reports.len() < counts.reports * REPORT_WIDTH {
            return Err(Refusal::ReportsShort);
        }
        Ok(())
    }

    // Writes a token of the text, after what is counted: its record, its string and its reports. It becomes a part of its callers, so that the
    // token need not lie in memory.
    #[inline(always)]
    pub fn put(&mut self, text: &[u8], t: Token, how: Settings, counts: Counts)
        requires { TokenRoom how.mode how.limit text.now t counts self.old }
        ensures same_buffers { SameBuffers self.old self.new }
        ensures put { TokenPut how.mode how.limit text.now t counts self.old self.new }
    {
        put_record(t, counts.strings, self.tokens, counts.tokens * RECORD_WIDTH);
        put_value(text, t, how.mode, self.strings, counts.strings);
        put_notes(text, t, how, self.reports, counts.reports * REPORT_WIDTH);
    }
}
