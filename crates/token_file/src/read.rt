// The reader of token files.
ghost use Rattle.std.specs.Prelude.{◌≡◌, ◌+◌, ◌*◌, ◌≤◌, ◌<◌, false, MatchOption, length, drop};
ghost use Rattle.std.proofs.lemmas.List.Edits.{sets};
ghost use Rattle.token.specs.Layout.{record_width};
ghost use Rattle.token.specs.Reason.{reason_ok};
ghost use Rattle.token_file.specs.Rules.{rows_ok, rows_numbers};
ghost use Rattle.token_file.specs.Format.{header_width, row_width, file_width, bytes_rows, framed};
ghost use Rattle.token_file.specs.Fits.{RowRead, FrameRead};
ghost use Rattle.token_file.specs.Calls.{ReadsFile, read_refusal_number};

use crate::layout::{HEADER_WIDTH, Layout};
use crate::number;
use crate::row::Row;
use base::answer::Numbered;
use token::layout::{RECORD_WIDTH, Record};

// Why no token file is read. Other cases and numbers than the writer's.
#[derive(Clone, Copy, PartialEq, Eq, Debug)]
pub enum ReadRefusal {
    // The frame of the file is wrong.
    BadFile = 7,
    // The records break the record rules.
    BadRecords = 8,
    // The token slice is too short.
    NoRoom = 4,
}

impl Numbered for ReadRefusal {
    ghost number_of = { read_refusal_number };

    fn number(self) -> u8 {
        self as u8
    }
}

// The row at `at`.
#[tactic(auto, unfolding(crate::specs::Format::row_width))]
fn get_row(file: &[u8], at: usize, y: Layout) -> Row
    requires { at + row_width y ≤ length file.now }
    ensures { RowRead y file.now at result }
{
    let o = y.offsets(at);
    Row {
        kind: number::get_little(file, o.kind, y.kind),
        reason: number::get_little(file, o.reason, y.reason),
        start: number::get_little(file, o.start, y.start),
        end: number::get_little(file, o.end, y.end),
        line: number::get_little(file, o.line, y.line),
        column: number::get_little(file, o.column, y.column),
    }
}

// A file whose mark, version and length are right.
#[derive(Clone, Copy, PartialEq, Eq, Debug)]
struct Framed<'a> {
    file: &'a [u8],
    layout: Layout,
    count: usize,
    ghost inside: { file_width layout count ≤ length file.now },
}

impl<'a> Framed<'a> {
    // The file, unless its frame is wrong.
    fn parse(file: &'a [u8], layout: Layout) -> Option<Self>
        ensures { MatchOption result (framed layout file.now ≡ false) (λ f. FrameRead layout file.now f.file.now f.layout f.count) }
    {
        let [o, f, t, v0, v1, c0, c1, c2, c3] = *file.first_chunk::<HEADER_WIDTH>()?;
        let mark = (o == b'O') & ((f == b'F') & (t == b'T'));
        let version = usize::from(u16::from_le_bytes([v0, v1]));
        let count = u32::from_le_bytes([c0, c1, c2, c3]) as usize;
        if !(mark & ((version == layout.version) & (file.len() == layout.file_width(count)))) {
            return None;
        }
        Some(Self {
            file,
            layout,
            count,
        })
    }

    // The row of this number. Inlined, so that the layout's widths are constants: with a call, reading a file took more than twice as long.
    #[inline(always)]
    fn row(&self, i: usize) -> Row
        requires { i < self.now.count }
        ensures { RowRead self.now.layout self.now.file.now (file_width self.now.layout i) result }
    {
        get_row(self.file, self.layout.file_width(i), self.layout)
    }

    // Whether the rows keep the rules. One loop for these and for records, which may have numbers below 0, would take a closure that gives a row or none:
    // its contract would have to say what each call gives, and each row of a file would be tested for being there.
    fn rules_hold(&self) -> bool
        ensures { result ≡ rows_ok reason_ok 0 (bytes_rows self.now.layout self.now.count (drop header_width self.now.file.now)) }
    {
        let mut prev = 0;
        for i in 0..self.count {
            let row = self.row(i);
            if !row.may_stand(prev, i + 1 == self.count) {
                return false;
            }
            prev = row.end;
        }
        self.count != 0
    }

    // Stores the records of the rows: numbers, where the writer's loop stores bytes. By number here and there: `chunks_exact` asks that a row is not empty.
    fn store(&self, tokens: &mut [i64])
        requires { self.now.count * record_width ≤ length tokens.old }
        ensures { tokens.new ≡ sets tokens.old 0 (rows_numbers (bytes_rows self.now.layout self.now.count (drop header_width self.now.file.now))) }
    {
        for i in 0..self.count {
            let record = Record::from(self.row(i));
            base::store(tokens, i * RECORD_WIDTH, &record.numbers());
        }
    }
}

// Reads a token file into `tokens`. Refuses 7, 8 and 4 in this order, and then writes nothing.
pub fn read_token_file(file: &[u8], tokens: &mut [i64]) -> Result<usize, ReadRefusal>
    ensures { ReadsFile file.now tokens.old result tokens.new }
{
    let Some(framed) = Framed::parse(file, Layout::version1()) else {
        return Err(ReadRefusal::BadFile);
    };
    if !framed.rules_hold() {
        return Err(ReadRefusal::BadRecords);
    }
    let count = framed.count;
    if tokens.len() / RECORD_WIDTH < count {
        return Err(ReadRefusal::NoRoom);
    }
    framed.store(tokens);
    Ok(count)
}
