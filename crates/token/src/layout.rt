// The numbers of a token record and of a report, in their order.
ghost use Rattle.std.specs.Prelude.{◌≡◌};
ghost use Rattle.token.specs.Layout.{record_numbers, report_numbers};
ghost use Rattle.token.specs.Helpers.{RecordFits, ReportFits};

// How many numbers a token record has.
pub const RECORD_WIDTH: usize = 12;

// How many numbers a report has.
pub const REPORT_WIDTH: usize = 5;

// What a token record says. Kind and reason are numbers: the row of a token file can have any.
#[derive(Clone, Copy, PartialEq, Eq, Debug, Default)]
pub struct Record {
    pub kind: usize,
    pub reason: usize,
    pub detail: usize,
    pub start: usize,
    pub end: usize,
    pub line: usize,
    pub column: usize,
    pub value: usize,
    pub size: usize,
    pub precision: usize,
    pub digits: usize,
    pub nanos: i64,
}

impl Record {
    // The record as it is stored. No `From`, which could not require that the numbers fit; and no ghost field says that they do, since the definitions
    // make records and reports of any numbers (`record_of`, `report_at`).
    #[tactic(auto, using(base::proofs::Signed::signed))]
    pub fn numbers(self) -> [i64; RECORD_WIDTH]
        requires { RecordFits self }
        ensures { result ≡ record_numbers self }
    {
        [
            self.kind as i64,
            self.reason as i64,
            self.detail as i64,
            self.start as i64,
            self.end as i64,
            self.line as i64,
            self.column as i64,
            self.value as i64,
            self.size as i64,
            self.precision as i64,
            self.digits as i64,
            self.nanos,
        ]
    }
}

// What a report says.
#[derive(Clone, Copy, PartialEq, Eq, Debug)]
pub struct Report {
    pub reason: usize,
    pub detail: usize,
    pub offset: usize,
    pub line: usize,
    pub column: usize,
}

impl Report {
    // The report as it is stored.
    #[tactic(auto, using(base::proofs::Signed::signed))]
    pub fn numbers(self) -> [i64; REPORT_WIDTH]
        requires { ReportFits self }
        ensures { result ≡ report_numbers self }
    {
        [
            self.reason as i64,
            self.detail as i64,
            self.offset as i64,
            self.line as i64,
            self.column as i64,
        ]
    }
}
