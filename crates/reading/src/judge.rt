// The checks of the text that every call makes first.
ghost use Rattle.std.specs.Prelude.{◌≡◌, Ok};
ghost use Rattle.base.specs.Bytes.{AreBytes};
ghost use Rattle.reading.specs.Refusals.{judge_of};

use crate::refusal::Refusal;
use limits::message_limit;
use utf8::check::check;

// Checks 1 and 2, in this order.
#[tactic(auto, unfolding(crate::specs::Refusals::judge_of))]
pub fn judge(text: &[u8]) -> Result<(), Refusal>
    ensures { result ≡ judge_of text.now }
{
    if text.len() > message_limit() {
        return Err(Refusal::TooLong);
    }
    check(text).map_err(|error| Refusal::NotUtf8(error.valid_up_to))
}

// A text that has passed them: short enough, and UTF-8. Its type says the bytes too, but a method's proof sees of a field only what the struct says.
// It is made behind `judge(text)?`: a function that gives it was tried, and each proof behind that had to rewrite by the equation of the two texts.
#[derive(Clone, Copy)]
pub(crate) struct Judged<'a> {
    pub(crate) text: &'a [u8],
    pub(crate) ghost fit: { judge_of text.now ≡ Ok tt },
    pub(crate) ghost bytes: { AreBytes text.now },
}
