// What the lexers of all kinds answer: a token at the front of the rest of a text, with lengths and offsets relative to its start.
#![tactic(auto)]

ghost use Rattle.std.specs.Prelude.{◌≡◌, ◌+◌, ◌≤◌, ◌<◌, length};
ghost use Rattle.std.proofs.lemmas.List.Edits.{sets};
ghost use Rattle.token.specs.Layout.{report_width, report_numbers};
ghost use Rattle.token.specs.Helpers.{ReportFits};
ghost use Rattle.lexeme.specs.Lexeme.{extent, whole, bare, illegal_reported, illegal, precise, duration};
ghost use Rattle.lexeme.specs.Reports.{report_at};

use token::kind::TokenKind;
use token::layout::Report;
use token::place::Place;
use token::reason::Reason;

// Strict reading refuses what is open or badly escaped; tolerant reading recovers and reports.
#[derive(Clone, Copy, PartialEq, Eq, Debug)]
pub enum Mode {
    Strict,
    Tolerant,
}

// A token of `len` bytes. Its value is `size` bytes from `value` on, a String's the `size` decoded bytes; its precision is `digits` bytes from
// `precision` on. `reports` counts its reports. Numbers that are neighbours in a record are none here: else the compiler loads two at once,
// which waits for both to be stored.
#[derive(Clone, Copy, PartialEq, Eq, Debug)]
pub struct Lexeme {
    pub kind: TokenKind,
    pub reason: Option<Reason>,
    pub len: usize,
    pub detail: usize,
    pub value: usize,
    pub digits: usize,
    pub size: usize,
    pub nanos: i64,
    pub precision: usize,
    pub reports: usize,
}

impl Lexeme {
    // A token without a value.
    pub fn bare(kind: TokenKind, len: usize) -> Self
        ensures { result ≡ bare kind len }
    {
        Self {
            kind,
            reason: None,
            len,
            detail: 0,
            value: len,
            digits: 0,
            size: 0,
            nanos: 0,
            precision: 0,
            reports: 0,
        }
    }

    // A token whose value is `size` bytes from `value` on, with so many reports.
    pub fn extent(kind: TokenKind, len: usize, value: usize, size: usize, reports: usize) -> Self
        ensures { result ≡ extent kind len value size reports }
    {
        Self {
            value,
            size,
            reports,
            ..Self::bare(kind, len)
        }
    }

    // The token is its own value.
    pub fn whole(kind: TokenKind, len: usize) -> Self
        ensures { result ≡ whole kind len }
    {
        Self::extent(kind, len, 0, len, 0)
    }

    // An Illegal token with so many reports.
    pub fn illegal_reported(reason: Reason, detail: usize, len: usize, reports: usize) -> Self
        ensures { result ≡ illegal_reported reason detail len reports }
    {
        Self {
            reason: Some(reason),
            detail,
            reports,
            ..Self::bare(TokenKind::Illegal, len)
        }
    }

    // An Illegal token.
    pub fn illegal(reason: Reason, detail: usize, len: usize) -> Self
        ensures { result ≡ illegal reason detail len }
    {
        Self::illegal_reported(reason, detail, len, 0)
    }

    // A number of `len` bytes whose value ends at `end`, before `p` and the digits of its precision.
    pub fn precise(kind: TokenKind, end: usize, len: usize) -> Self
        requires { end < len }
        ensures { result ≡ precise kind end len }
    {
        let precision = end + 1;
        Self {
            value: 0,
            size: end,
            precision,
            digits: len - precision,
            ..Self::bare(kind, len)
        }
    }

    // A Duration of so many nanoseconds.
    pub fn duration(len: usize, nanos: i64) -> Self
        ensures { result ≡ duration len nanos }
    {
        Self {
            nanos,
            ..Self::whole(TokenKind::Duration, len)
        }
    }
}

// Stores a report that stands at a place. It takes any number of a reason that fits, as a report does.
pub fn put_report(p: Place, reason: usize, detail: usize, out: &mut [i64], at: usize)
    requires { (at + report_width ≤ length out.old) × ReportFits (report_at p reason detail) }
    ensures { out.new ≡ sets out.old at (report_numbers (report_at p reason detail)) }
{
    let report = Report {
        reason,
        detail,
        offset: p.offset,
        line: p.line,
        column: p.column,
    };
    base::store(out, at, &report.numbers());
}
