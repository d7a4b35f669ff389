// What is seen in a candidate's text by its pieces. A text can be cut behind a letter and before a digit; what stands before and after such cuts on both sides
// of the byte that changes is seen once for all bytes that are tried there.
ghost use Rattle.std.specs.Prelude.{◌≡◌, ◌&&◌, ◌<◌, length};
ghost use Rattle.base.specs.Classes.{is_digit, is_lower_alpha};
ghost use Rattle.suggest.specs.Helpers.{seen_of, is_minus, join_seen};
ghost use Rattle.suggest.specs.Helpers.{MinusZero, Front, Before, Behind, Surrounds, Cut};

use crate::seen::see;
use base::class::{is_digit, is_lower_alpha};
use base::peek;
use base::runs::reach_run;
use scan::run::Blank;

// What is seen on one side of a cut.
#[derive(Clone, Copy, PartialEq, Eq, Debug)]
pub struct Side {
    pub cut: usize,
    pub seen: Option<i64>,
}

// What surrounds the piece of a text that changes: what is seen before it and behind it, where the text is cut there.
#[derive(Clone, Copy, PartialEq, Eq, Debug)]
pub struct Around {
    pub before: Option<Side>,
    pub behind: Option<Side>,
}

// Whether a text can be cut between two bytes.
fn is_seam(a: u8, b: u8) -> bool
    ensures { result ≡ is_lower_alpha a && is_digit b }
{
    is_lower_alpha(a) & is_digit(b)
}

// What is seen before the nearest cut before the byte at `i`. Here and below the offset stands beside the whole run, since cuts are offsets into it.
fn before(run: &[u8], i: usize) -> Option<Side>
    requires { i < length run.now }
    ensures { Before run.now i result }
{
    for cut in (1..i).rev() {
        if is_seam(run[cut - 1], run[cut]) {
            let seen = see(&run[..cut]);
            return Some(Side { cut, seen });
        }
    }
    None
}

// What is seen behind the nearest cut behind it.
fn behind(run: &[u8], i: usize) -> Option<Side>
    requires { i < length run.now }
    ensures { Behind run.now i result }
{
    for cut in i + 2..run.len() {
        if is_seam(run[cut - 1], run[cut]) {
            let seen = see(&run[cut..]);
            return Some(Side { cut, seen });
        }
    }
    None
}

// What surrounds the byte at `i`.
pub fn surroundings(run: &[u8], i: usize) -> Around
    requires { i < length run.now }
    ensures { Surrounds run.now i result }
{
    Around {
        before: before(run, i),
        behind: behind(run, i),
    }
}

// Whether the first byte that is no blank is `-`.
fn is_minus(text: &[u8]) -> bool
    ensures { result ≡ is_minus text.now }
{
    peek(text, reach_run(Blank, text, 0)) == b'-'
}

// Whether a zero is seen under `-`. It is joined with nothing: under the sign what follows may be one nanosecond more than by itself.
fn is_minus_zero(neg: bool, seen: Option<i64>) -> bool
    ensures { MinusZero neg seen result }
{
    neg & (seen == Some(0))
}

// What is seen in two parts as one: the second is added under the sign of the first.
fn join(neg: bool, a: Option<i64>, b: Option<i64>) -> Option<i64>
    ensures { result ≡ join_seen neg a b }
{
    let x = a?;
    let y = b?;
    if neg {
        x.checked_sub(y)
    } else {
        x.checked_add(y)
    }
}

// What is seen in a text of which one side is known. Inlined: as a call from both places below it made suggestions take up to 8 in a hundred instructions more.
#[inline(always)]
#[tactic(auto, using(crate::proofs::Seams::seam_in))]
fn see_front(text: &[u8], before: Option<Side>) -> Option<i64>
    requires { Front text.now before }
    ensures { result ≡ seen_of text.now }
{
    let Some(Side { cut, seen }) = before else {
        return see(text);
    };
    let neg = is_minus(text);
    if is_minus_zero(neg, seen) {
        return see(text);
    }
    join(neg, seen, see(&text[cut..]))
}

// What is seen in a text with a piece of which the surroundings are known.
pub fn see_around(text: &[u8], around: Around) -> Option<i64>
    requires { Cut text.now around }
    ensures { result ≡ seen_of text.now }
{
    let Some(Side { cut, seen }) = around.behind else {
        return see_front(text, around.before);
    };
    let front = see_front(&text[..cut], around.before);
    let neg = is_minus(text);
    if is_minus_zero(neg, front) {
        return see(text);
    }
    join(neg, front, seen)
}
