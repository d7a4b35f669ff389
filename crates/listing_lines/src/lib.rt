// The listing of a text, written to a lent buffer: one token a line, or `refused` and the number.
#![tactic(auto)]

ghost use Rattle.std.specs.Prelude.{◌≡◌, ◌+◌, ◌≤◌, leb, length};
ghost use Rattle.std.proofs.lemmas.List.Edits.{sets};
ghost use Rattle.limits.specs.Limits.{max_message_size, max_bytes_literal_length};
ghost use Rattle.token.specs.Helpers.{RecordFits};
ghost use Rattle.utf8.specs.Grammar.{Octets};
ghost use Rattle.reading.specs.Buffers.{record_of};
ghost use Rattle.listing_lines.specs.Lines.{line_text, line_numbers, refused_line};
ghost use Rattle.listing_lines.specs.Listing.{token_lines, lines_size, Fills, Lists};
ghost use Rattle.listing_lines.specs.Rows.{line_at, rows_lines};

use base::answer::Numbered;
use lexer::cursor::Cursor;
use lexer::next::Token;
use lexer::reading::{Reading, Settings};
use limits::default_bytes_limit;
use notation::numbers::{number_size, separator_before, write_number};
use reading::judge::judge;
use reading::text::read_text;
use token::layout::RECORD_WIDTH;
use token::place::Place;
use token::reason::number_of;

// What a refusal's line begins with.
const REFUSED: &[u8] = b"refused ";

// The out buffer is shorter than the listing.
#[derive(Clone, Copy, PartialEq, Eq, Debug)]
pub struct OutShort;

// The numbers of the line of a record.
fn line_numbers(numbers: &[i64; RECORD_WIDTH]) -> [i64; 7]
    ensures { result ≡ line_at numbers.now }
{
    let [kind, reason, _, start, end, line, column, _, _, _, _, nanos] = *numbers;
    [start, end, line, column, kind, reason, nanos]
}

// The same of a token, of which no record is stored when it is measured: a record made for it would have twelve numbers and the same casts, and a trait for
// both would be longer. The casts lose nothing, as is required: `try_from` would add a case that cannot come.
fn token_numbers(t: Token) -> [i64; 7]
    requires { RecordFits (record_of 0 t) }
    ensures { result ≡ line_numbers (record_of 0 t) }
{
    [
        t.start.offset as i64,
        t.end.offset as i64,
        t.start.line as i64,
        t.start.column as i64,
        t.kind.number() as i64,
        number_of(t.reason) as i64,
        t.nanos,
    ]
}

// How many bytes the line of these numbers has. A loop: with `map` and `sum` it was not proved that no sum on the way is too large.
fn line_size(row: &[i64; 7]) -> usize
    ensures { result ≡ length (line_text row.now) }
{
    let mut size = 0;
    for z in row {
        size += number_size(*z) + 1;
    }
    size
}

// Writes the line of these numbers from `at` on, and gives where it ends. An index, since the lines are written to one buffer.
fn put_line(row: &[i64; 7], out: &mut [u8], at: usize) -> usize
    requires { at + length (line_text row.now) ≤ length out.old }
    ensures { (result ≡ at + length (line_text row.now)) × (out.new ≡ sets out.old at (line_text row.now)) }
{
    let mut end = at;
    for (k, z) in row.iter().enumerate() {
        end = write_number(out, end, *z, separator_before(row.len() - 1 - k));
    }
    end
}

// A listed text is read strictly, with the default limit.
fn strictly() -> Settings
    ensures mode { result.mode ≡ Reading.Strict }
    ensures limit { result.limit ≡ max_bytes_literal_length }
{
    Settings {
        mode: Reading::Strict,
        limit: default_bytes_limit(),
    }
}

// How many bytes the lines of a text's tokens have. It writes nothing, so that the out buffer is measured before the text is read.
// No `for`: the place jumps by the length of the token that was found.
fn lines_size(text: &[u8]) -> usize
    requires { (length text.now ≤ max_message_size) × Octets text.now }
    ensures { result ≡ length (token_lines text.now) }
{
    let how = strictly();
    let mut place = Place::first();
    let mut size = 0;
    'tokens: loop {
        let here = Cursor { text, place };
        let t = here.next_token(how);
        size += line_size(&token_numbers(t));
        if t.kind.is_eof() {
            return size;
        }
        place = t.end;
    }
}

// Whether a buffer of so many bytes holds the lines of a text's tokens. One that is too long or not UTF-8 has no lines.
#[tactic(auto, unfolding(crate::specs::Listing::lines_size))]
fn holds_lines(room: usize, text: &[u8]) -> bool
    ensures { result ≡ leb (lines_size text.now) room }
{
    match judge(text) {
        Ok(()) => lines_size(text) <= room,
        Err(_) => true,
    }
}

// Writes the lines of these records from the buffer's start, and gives where they end.
fn put_lines(records: &[[i64; RECORD_WIDTH]], out: &mut [u8]) -> usize
    requires { length (rows_lines records.now) ≤ length out.old }
    ensures { (result ≡ length (rows_lines records.now)) × (out.new ≡ sets out.old 0 (rows_lines records.now)) }
{
    let mut end = 0;
    for numbers in records {
        end = put_line(&line_numbers(numbers), out, end);
    }
    end
}

// Writes `refused` and the number, where the buffer holds them.
fn put_refusal(number: u8, out: &mut [u8]) -> Result<usize, OutShort>
    ensures { Fills (refused_line number) out.old result out.new }
{
    let z = i64::from(number);
    let size = REFUSED.len() + number_size(z) + 1;
    if out.len() < size {
        return Err(OutShort);
    }
    base::copy(out, 0, REFUSED);
    Ok(write_number(out, REFUSED.len(), z, b'\n'))
}

// Lists a text, which is read strictly and with the default limit: the lines of its tokens, or the line of the refusal, from the out
// buffer's start, and gives how many bytes they have. Where that buffer is short, nothing is written to any buffer. The other three are the
// reading's.
pub fn list(
    text: &[u8],
    tokens: &mut [i64],
    strings: &mut [u8],
    reports: &mut [i64],
    out: &mut [u8],
) -> Result<usize, OutShort>
    ensures { Lists text.now tokens.old strings.old reports.old out.old result tokens.new strings.new reports.new out.new }
{
    if !holds_lines(out.len(), text) {
        return Err(OutShort);
    }
    match read_text(text, strictly(), tokens, strings, reports) {
        Ok(counts) => {
            let (records, _) = tokens.as_chunks::<RECORD_WIDTH>();
            Ok(put_lines(&records[..counts.tokens], out))
        }
        Err(refusal) => put_refusal(refusal.number(), out),
    }
}
