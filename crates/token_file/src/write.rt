// The writer of token files.
ghost use Rattle.std.specs.Prelude.{◌≡◌, ◌+◌, ◌≤◌, length, map};
ghost use Rattle.std.proofs.lemmas.List.Edits.{sets};
ghost use Rattle.token_file.specs.Rules.{row_at};
ghost use Rattle.token_file.specs.Format.{header, header_width, row_bytes, rows_bytes, row_width, file_width};
ghost use Rattle.token_file.specs.Calls.{WritesFile, write_refusal_number};

use crate::layout::{HEADER_WIDTH, Layout};
use crate::number;
use crate::records::Records;
use crate::row::Row;
use base::answer::Numbered;

// Why no token file is written. Other cases and numbers than the reader's.
#[derive(Clone, Copy, PartialEq, Eq, Debug)]
pub enum WriteRefusal {
    // The records break the record rules, or the slice is too short for them.
    BadRecords = 8,
    // A column above 65,535.
    LongColumn = 9,
    // The buffer is too short.
    NoRoom = 10,
}

impl Numbered for WriteRefusal {
    ghost number_of = { write_refusal_number };

    fn number(self) -> u8 {
        self as u8
    }
}

// Writes mark, version and count.
fn put_header(out: &mut [u8], y: Layout, count: usize)
    requires { header_width ≤ length out.old }
    ensures { out.new ≡ sets out.old 0 (header y count) }
{
    base::store(out, 0, b"OFT");
    number::put_little(out, 3, 2, y.version);
    number::put_little(out, 5, 4, count);
}

// Writes the row from `at` on.
#[tactic(auto, unfolding(crate::specs::Format::row_width))]
fn put_row(out: &mut [u8], at: usize, y: Layout, row: Row)
    requires { at + row_width y ≤ length out.old }
    ensures { out.new ≡ sets out.old at (row_bytes y row) }
{
    let o = y.offsets(at);
    number::put_little(out, o.kind, y.kind, row.kind);
    number::put_little(out, o.reason, y.reason, row.reason);
    number::put_little(out, o.start, y.start, row.start);
    number::put_little(out, o.end, y.end, row.end);
    number::put_little(out, o.line, y.line, row.line);
    number::put_little(out, o.column, y.column, row.column);
}

// Writes the rows of the records after the header.
fn put_rows(out: &mut [u8], y: Layout, records: Records)
    requires { file_width y (length records.all.now) ≤ length out.old }
    ensures { out.new ≡ sets out.old header_width (rows_bytes y (map row_at records.entry.all.now)) }
{
    for i in 0..records.count() {
        put_row(out, y.file_width(i), y, records.row(i));
    }
}

// Writes the token file of `count` records into `out`; C lends a slice and says the count. Refuses 8, 9 and 10 in this order, and then writes nothing.
pub fn write_token_file(
    records: &[i64],
    count: usize,
    out: &mut [u8],
) -> Result<usize, WriteRefusal>
    ensures { WritesFile records.now count out.old result out.new }
{
    let Some(records) = Records::parse(records, count) else {
        return Err(WriteRefusal::BadRecords);
    };
    if records.some_long_column() {
        return Err(WriteRefusal::LongColumn);
    }
    let y = Layout::version1();
    let size = y.file_width(count);
    if out.len() < size {
        return Err(WriteRefusal::NoRoom);
    }
    put_header(out, y, count);
    put_rows(out, y, records);
    Ok(size)
}
