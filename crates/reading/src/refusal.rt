// The refusals of the calls on a text.
ghost use Rattle.std.specs.Prelude.{◌≡◌};
ghost use Rattle.reading.specs.Refusals.{refusal_number};

use base::answer::Numbered;

#[derive(Clone, Copy, PartialEq, Eq, Debug)]
pub enum Refusal {
    // The text exceeds 67,108,864 bytes.
    TooLong,
    // The text isn't UTF-8; the offset of its first ill-formed sequence.
    NotUtf8(usize),
    // The offset is beyond the text or inside a character, or the place is none of the text.
    NoPlace,
    TokensShort,
    StringsShort,
    ReportsShort,
}

impl Numbered for Refusal {
    ghost number_of = { refusal_number };

    // Document 01's number.
    fn number(self) -> u8 {
        match self {
            Refusal::TooLong => 1,
            Refusal::NotUtf8(_) => 2,
            Refusal::NoPlace => 3,
            Refusal::TokensShort => 4,
            Refusal::StringsShort => 5,
            Refusal::ReportsShort => 6,
        }
    }
}
