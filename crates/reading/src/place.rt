// The place of an offset.
ghost use Rattle.std.specs.Prelude.{◌≡◌};
ghost use Rattle.reading.specs.Answers.{place_of_answer};
ghost use Rattle.reading.specs.Refusals.{good_offset};

use crate::judge::judge;
use crate::refusal::Refusal;
use token::place::{Place, walk};
use utf8::check::is_inside;

// Whether an offset is neither beyond the text nor inside a character.
#[tactic(auto, unfolding(crate::specs::Refusals::good_offset))]
pub fn good_offset(text: &[u8], offset: usize) -> bool
    ensures { result ≡ good_offset text.now offset }
{
    offset <= text.len() && !is_inside(text, offset)
}

// The place of an offset of the text.
#[tactic(auto, unfolding(crate::specs::Answers::place_of_answer))]
pub fn place_of(text: &[u8], offset: usize) -> Result<Place, Refusal>
    ensures { result ≡ place_of_answer text.now offset }
{
    judge(text)?;
    if !good_offset(text, offset) {
        return Err(Refusal::NoPlace);
    }
    Ok(walk(text, Place::first(), offset))
}
