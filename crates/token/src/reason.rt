// The reasons of Illegal tokens and of reports, by the numbers of documents 01 and 02.
ghost use Rattle.std.specs.Prelude.{◌≡◌};
ghost use Rattle.token.specs.Reason.{reason_number, is_unknown_escape, number_of, reason_ok};

use crate::kind::ILLEGAL;

// The numbers by which the rows of token files are judged. Any number can stand there, so they are compared as numbers.
const NONE: usize = 0;

const FIRST: usize = Reason::UnexpectedCharacter as usize;

const BAD_DURATION: usize = Reason::BadDuration as usize;

const BAD_TIMESTAMP: usize = Reason::BadTimestamp as usize;

#[derive(Clone, Copy, PartialEq, Eq, Debug)]
pub enum Reason {
    UnexpectedCharacter = 1,
    OpenBlockComment,
    NewlineInString,
    OpenEscape,
    BadX,
    BadOctal,
    BadU,
    BadCapitalU,
    UnknownEscape,
    OpenString,
    StringNotUtf8,
    OpenTripleString,
    BytesOverLimit,
    OpenBytes,
    AtWithoutName,
    PlusWithoutInf,
    MinusWithoutDigit,
    BadDuration,
    // Of a report only.
    StringEndedAtNewline,
    // Of a report only.
    BytesEndedAtNewline,
    BadTimestamp,
}

#[tactic(auto, unfolding(crate::specs::Reason::reason_number))]
impl Reason {
    // The reason's number in records, reports and token files.
    pub fn number(self) -> usize
        ensures { result ≡ reason_number self }
    {
        self as usize
    }

    pub fn is_unknown_escape(self) -> bool
        ensures { result ≡ is_unknown_escape self }
    {
        self == Reason::UnknownEscape
    }
}

// The number that a record has where a token has this reason or none.
pub fn number_of(reason: Option<Reason>) -> usize
    ensures { result ≡ number_of reason }
{
    match reason {
        Some(reason) => reason.number(),
        None => NONE,
    }
}

// Whether a record may have this reason with the kind of this number.
pub fn reason_ok(kind: usize, reason: usize) -> bool
    ensures { result ≡ reason_ok kind reason }
{
    if kind == ILLEGAL {
        matches!(reason, FIRST..=BAD_DURATION | BAD_TIMESTAMP)
    } else {
        reason == NONE
    }
}
