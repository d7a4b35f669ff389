// Token records as they are stored, and their judgement.
ghost use Rattle.std.specs.Prelude.{◌≡◌, ◌&&◌, ◌<◌, [], MatchOption, false, true, length, map, get_or};
ghost use Rattle.token.specs.Reason.{reason_ok};
ghost use Rattle.token_file.specs.Rules.{row_at, rows_ok, largest_column, some_above};
ghost use Rattle.token_file.specs.Fits.{all_natural, CheckedRecords};
ghost use Rattle.token_file.specs.Calls.{records_ok};

use crate::row::Row;
use token::layout::RECORD_WIDTH;

// Where a record has its column.
const COLUMN: usize = 6;

// The largest column that 16 bits hold.
const LARGEST_COLUMN: i64 = 65535;

// Whether the records keep the rules.
fn rules_hold(records: &[[i64; RECORD_WIDTH]]) -> bool
    ensures { result ≡ all_natural records.now && rows_ok reason_ok 0 (map row_at records.now) }
{
    let mut prev = 0;
    for (i, record) in records.iter().enumerate() {
        let Ok(row) = Row::try_from(record) else {
            return false;
        };
        if !row.may_stand(prev, i + 1 == records.len()) {
            return false;
        }
        prev = row.end;
    }
    !records.is_empty()
}

// Records that keep the rules.
#[derive(Clone, Copy, PartialEq, Eq, Debug)]
pub struct Records<'a> {
    all: &'a [[i64; RECORD_WIDTH]],
    ghost natural: { all_natural all.now ≡ true },
}

impl<'a> Records<'a> {
    // The first `count` records, unless the slice has fewer or they break the rules.
    pub fn parse(records: &'a [i64], count: usize) -> Option<Self>
        ensures { MatchOption result (records_ok records.now count ≡ false) (λ r. CheckedRecords records.now count r.all.now) }
    {
        let (chunks, _) = records.as_chunks::<RECORD_WIDTH>();
        if chunks.len() < count {
            return None;
        }
        let all = &chunks[..count];
        if !rules_hold(all) {
            return None;
        }
        Some(Self { all })
    }

    // How many records there are.
    pub fn count(&self) -> usize
        ensures { result ≡ length self.now.all.now }
    {
        self.all.len()
    }

    // The row of this number.
    pub fn row(&self, i: usize) -> Row
        requires { i < length self.now.all.now }
        ensures { result ≡ row_at (get_or self.now.all.now i []) }
    {
        let Ok(row) = Row::try_from(&self.all[i]) else {
            unreachable!();
        };
        row
    }

    // Whether a record has a column that 16 bits do not hold.
    pub fn some_long_column(&self) -> bool
        ensures { result ≡ some_above largest_column (map row_at self.now.all.now) }
    {
        self.all
            .iter()
            .any(|record| LARGEST_COLUMN < record[COLUMN])
    }
}
