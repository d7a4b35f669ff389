// The check of a text.
ghost use Rattle.std.specs.Prelude.{◌≡◌, ◌≤◌, length};
ghost use Rattle.utf8.specs.Onward.{Passed};
ghost use Rattle.utf8.specs.Check.{Checked, inside_char, char_end};

use crate::ascii::past_ascii;
use crate::character::{char_size, is_tail};
use crate::short::past_short;

// Why a text is not UTF-8.
#[derive(Clone, Copy, PartialEq, Eq, Debug)]
pub struct Utf8Error {
    // The offset of the first byte of the first ill-formed sequence.
    pub valid_up_to: usize,
}

// How many bytes are checked character by character after a window that fails, so that a text of longer characters does not try a window
// at each.
const STRETCH: usize = 256;

// The first place between characters from `end` on, or the error where no character stands at a place before it.
#[tactic(auto, using(crate::proofs::Scans::passing))]
fn past_chars(text: &[u8], at: usize, end: usize) -> Result<usize, Utf8Error>
    requires { (at ≤ length text.now) × (end ≤ length text.now) }
    ensures { Passed text.now at end result }
{
    let mut i = at;
    // A `while`: the step is the length of what was found.
    while i < end {
        if text[i] < 0x80 {
            i = past_ascii(text, i);
        } else {
            i += char_size(&text[i..]).ok_or(Utf8Error { valid_up_to: i })?;
        }
    }
    Ok(i)
}

// Windows of short characters first, and then a stretch of any. Not by `from_utf8`, whose answer laws would have to show to be that of the grammar.
#[tactic(auto, using(crate::proofs::Scans::scanning))]
pub fn check(text: &[u8]) -> Result<(), Utf8Error>
    ensures { Checked text.now result }
{
    let mut i = 0;
    // A `while`: a step ends where windows and a stretch end.
    while i < text.len() {
        let from = past_short(text, i);
        let end = text.len().min(from.saturating_add(STRETCH));
        i = past_chars(text, from, end)?;
    }
    Ok(())
}

// Whether an offset of a well-formed text is inside a character.
#[tactic(auto, unfolding(crate::specs::Check::inside_char))]
pub fn is_inside(text: &[u8], offset: usize) -> bool
    ensures { result ≡ inside_char text.now offset }
{
    is_tail(base::peek(text, offset))
}

// The end of the character that `at` is inside of, or `at` where it is inside none.
pub fn char_end(s: &[u8], at: usize) -> usize
    ensures { result ≡ char_end s.now at }
{
    let Some(rest) = s.get(at..) else {
        return at;
    };
    at + rest.iter().take_while(|b| is_tail(**b)).count()
}
