// The numbers of a token record that a token file keeps, and the record rules.
ghost use Rattle.std.specs.Prelude.{◌≡◌, ◌&&◌, OkIff, true};
ghost use Rattle.token.specs.Reason.{reason_ok};
ghost use Rattle.token_file.specs.Rules.{natural, natural_of, natural_row, row_at, filled, span_ok, row_ok};
ghost use Rattle.token_file.specs.Fits.{last_ok};

use limits::MAX_MESSAGE_SIZE;
use std::num::TryFromIntError;
use token::layout::{RECORD_WIDTH, Record};
use token::{kind, reason};

// The last line and the last column: both count from 1.
const LAST_PLACE: usize = MAX_MESSAGE_SIZE + 1;

// The kept numbers. Kind and reason are no enums here: a file can have any numbers, and the rules judge them.
#[derive(Clone, Copy, PartialEq, Eq, Debug)]
pub struct Row {
    pub kind: usize,
    pub reason: usize,
    pub start: usize,
    pub end: usize,
    pub line: usize,
    pub column: usize,
}

// A kept number, unless it is below 0.
fn natural(z: i64) -> Result<usize, TryFromIntError>
    ensures { OkIff result (natural z ≡ true) (natural_of z) }
{
    usize::try_from(z)
}

// The kept numbers of a record, unless one of them is below 0.
impl TryFrom<&[i64; RECORD_WIDTH]> for Row {
    type Error = TryFromIntError;

    ghost try_from_gives = { λ l r. OkIff r (natural_row l.now ≡ true) (row_at l.now) };

    #[tactic(auto, unfolding(crate::specs::Rules::natural_row, crate::specs::Rules::row_at))]
    fn try_from(numbers: &[i64; RECORD_WIDTH]) -> Result<Self, TryFromIntError> {
        let [kind, reason, _, start, end, line, column, ..] = *numbers;
        Ok(Self {
            kind: natural(kind)?,
            reason: natural(reason)?,
            start: natural(start)?,
            end: natural(end)?,
            line: natural(line)?,
            column: natural(column)?,
        })
    }
}

// The record of these numbers, with 0 for those that a token file does not keep. Another type: half of a record's numbers are no part of a row.
impl From<Row> for Record {
    ghost from_gives = { λ row r. r ≡ filled row };

    fn from(row: Row) -> Self {
        Self {
            kind: row.kind,
            reason: row.reason,
            start: row.start,
            end: row.end,
            line: row.line,
            column: row.column,
            ..Self::default()
        }
    }
}

impl Row {
    fn span_ok(self) -> bool
        ensures { result ≡ span_ok self.kind self.start self.end }
    {
        if self.kind == kind::EOF {
            return self.start == self.end;
        }
        self.start < self.end
    }

    // Whether the row keeps the rules after the end of the row before it.
    #[tactic(auto, unfolding(crate::specs::Rules::row_ok))]
    fn row_ok(self, prev: usize) -> bool
        ensures { result ≡ row_ok reason_ok prev self }
    {
        let line = (1 <= self.line) & (self.line <= LAST_PLACE);
        let column = (1 <= self.column) & (self.column <= LAST_PLACE);
        let places = (prev <= self.start) & ((self.end <= MAX_MESSAGE_SIZE) & (line & column));
        let reason = reason::reason_ok(self.kind, self.reason);
        (self.kind <= kind::LAST) & (reason & (self.span_ok() & places))
    }

    // Whether the row is of kind 0 exactly where it is the last.
    fn last_ok(self, is_last: bool) -> bool
        ensures { result ≡ last_ok is_last self }
    {
        if is_last {
            return self.kind == kind::EOF;
        }
        self.kind != kind::EOF
    }

    // Whether the row may stand after the end `prev`.
    pub fn may_stand(self, prev: usize, is_last: bool) -> bool
        ensures { result ≡ last_ok is_last self && row_ok reason_ok prev self }
    {
        self.last_ok(is_last) & self.row_ok(prev)
    }
}
