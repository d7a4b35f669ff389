// A whole string literal: one step at a time, and at once the parts that have only characters that stand for themselves and escapes of one
// letter.
ghost use Rattle.std.specs.Prelude.{◌≡◌, false, ◌+◌, ◌*◌, ◌≤◌, ◌<◌, length, drop};
ghost use Rattle.std.proofs.lemmas.List.Edits.{sets};
ghost use Rattle.base.specs.Choice.{pick};
ghost use Rattle.base.specs.Bytes.{byte};
ghost use Rattle.base.specs.Runs.{reach};
ghost use Rattle.utf8.specs.Grammar.{valid_to};
ghost use Rattle.utf8.specs.State.{is_between, push_all};
ghost use Rattle.utf8.specs.Character.{octets_of};
ghost use Rattle.strings.specs.Piece.{piece_of};
ghost use Rattle.strings.specs.Plain.{is_ordinary, in_ordinary, simple_at, simple_bytes, Spells};
ghost use Rattle.strings.specs.Decode.{step_of};
ghost use Rattle.strings.specs.Helpers.{measured};
ghost use Rattle.strings.specs.Literal.{literal_of};

use crate::digit::simple;
use crate::piece::{BadEscape, Piece, next_piece};
use base::runs::{Run, past_windows, reach_bytes};
use lexeme::Mode;
use token::reason::Reason;
use utf8::character::Encoded;
use utf8::check::is_inside;
use utf8::state::State;

// How a literal ends.
#[derive(Clone, Copy)]
pub enum End {
    Closed,
    AtNewline,
    Cut,
    Open,
    Bad(BadEscape),
}

// One step, with what the mode makes of it.
#[derive(Clone, Copy)]
pub enum Step {
    // The bytes of `encoded` are decoded, from `used` bytes of text. `reason` is that of a report, whose letter is the second byte.
    Go {
        encoded: Encoded,
        used: usize,
        reason: Option<Reason>,
    },
    // The literal ends, at `stop`.
    Stop {
        end: End,
        stop: usize,
    },
}

// What a literal is: how many bytes it decodes to, how many bad escapes it reports, where and how it ends, and whether its bytes are UTF-8.
#[derive(Clone, Copy)]
pub struct Measure {
    pub count: usize,
    pub reports: usize,
    pub stop: usize,
    pub end: End,
    pub state: State,
}

// A part of a literal: it ends at `end` and stands for `count` bytes.
#[derive(Clone, Copy)]
struct Part {
    end: usize,
    count: usize,
}

// The literal ends so.
fn stop_at(end: End, stop: usize) -> Step
    ensures { result ≡ Step.Stop end stop }
{
    Step::Stop { end, stop }
}

// The step at the offset i of the token. The offset stays beside the slice, since the places where a literal ends are counted from the token's start.
#[tactic(auto, unfolding(crate::specs::Decode::step_of), using(base::proofs::Reaches::rest_is))]
pub fn step_at(s: &[u8], i: usize, mode: Mode) -> Step
    requires { i ≤ length s.now }
    ensures { result ≡ step_of mode i (piece_of (drop i s.now)) }
{
    let p = next_piece(&s[i..]);
    match p {
        Piece::Bytes { encoded, used } => Step::Go {
            encoded,
            used,
            reason: None,
        },
        Piece::Bad { escape, used } => match mode {
            Mode::Strict => stop_at(End::Bad(escape), i + used),
            Mode::Tolerant => {
                let bytes = [b'\\', escape.letter, 0, 0];
                Step::Go {
                    encoded: Encoded { bytes, len: 2 },
                    used,
                    reason: Some(escape.reason),
                }
            }
        },
        Piece::Close => stop_at(End::Closed, i + 1),
        Piece::Newline => match mode {
            Mode::Strict => stop_at(End::AtNewline, i + 1),
            Mode::Tolerant => stop_at(End::AtNewline, i),
        },
        Piece::Cut => stop_at(End::Cut, i + 1),
        Piece::Open => stop_at(End::Open, i),
    }
}

// The bytes that stand for themselves.
#[derive(Clone, Copy)]
struct Ordinary;

impl Run for Ordinary {
    ghost has = { λ _. in_ordinary };

    fn has(self, a: u8, _b: u8) -> bool {
        is_ordinary(a)
    }
}

// A byte that stands for itself.
#[tactic(auto, unfolding(crate::specs::Plain::is_ordinary))]
fn is_ordinary(b: u8) -> bool
    ensures { result ≡ is_ordinary b }
{
    (b != b'"') & (b != b'\n') & (b != b'\\')
}

// The end of the run of bytes from i on that stand for themselves. Where escapes follow each other there are none, and the first byte says it.
// From an offset and not of a slice, of which each of its callers would add the offset to what it gives.
#[tactic(auto, using(base::proofs::Reaches::reach_le, base::proofs::Reaches::reach_ge))]
pub fn ordinary_end(s: &[u8], i: usize) -> usize
    requires { i ≤ length s.now }
    ensures is { result ≡ reach in_ordinary s.now i }
    ensures later { i ≤ result }
    ensures inside { result ≤ length s.now }
{
    if !is_ordinary(base::peek(s, i)) {
        return i;
    }
    reach_bytes(Ordinary, s, past_windows(Ordinary, s, i))
}

// The byte that the two bytes stand for, where they are an escape of one letter.
#[tactic(auto, unfolding(crate::specs::Plain::simple_at))]
fn simple_at(pair: &[u8; 2]) -> Option<u8>
    ensures { result ≡ simple_at (byte pair.now 0) (byte pair.now 1) }
{
    match pair {
        [b'\\', e] => simple(*e),
        _ => None,
    }
}

// How many escapes of one letter follow each other at the front.
#[tactic(auto, using(crate::proofs::Decodes::simple_le))]
fn simple_count(t: &[u8]) -> usize
    ensures count { result ≡ length (simple_bytes t.now) }
    ensures few { 2 * result ≤ length t.now }
{
    let (pairs, _) = t.as_chunks::<2>();
    pairs
        .iter()
        .take_while(|pair| simple_at(pair).is_some())
        .count()
}

// Stores the bytes that those escapes stand for, and counts them.
#[tactic(auto, using(crate::proofs::Decodes::simple_le))]
pub fn put_simple(t: &[u8], out: &mut [u8]) -> usize
    requires { length (simple_bytes t.now) ≤ length out.old }
    ensures count { result ≡ length (simple_bytes t.now) }
    ensures few { 2 * result ≤ length t.now }
    ensures stored { out.new ≡ sets out.old 0 (simple_bytes t.now) }
{
    let (pairs, _) = t.as_chunks::<2>();
    for (k, pair) in pairs.iter().enumerate() {
        let Some(b) = simple_at(pair) else {
            return k;
        };
        out[k] = b;
    }
    pairs.len()
}

// The state of a check after the bytes of a piece. By a test for each of the four, as `Encoded::put`: for a slice of them the compiler loads at once what was
// stored byte by byte, which has to wait.
fn feed(state: State, encoded: Encoded) -> State
    requires { encoded.len ≤ 4 }
    ensures { result ≡ push_all state (octets_of encoded) }
{
    let mut state = state;
    for k in 0..4 {
        if k < encoded.len {
            state = state.push(encoded.bytes[k]);
        }
    }
    state
}

// A string literal at the front of a well-formed text, whose first byte is the opening quote.
#[derive(Clone, Copy)]
pub struct Literal<'a> {
    pub text: &'a [u8],
    ghost not_empty: { 0 < length text.now },
    ghost well_formed: { valid_to text.now ≡ length text.now },
}

impl<'a> Literal<'a> {
    // The part from i on of characters that stand for themselves and escapes of one letter. These leave no character begun; where one has, in
    // what is decoded or in the text, the part is empty. An offset, since the part's end is counted from the token's start.
    fn part_at(&self, i: usize, state: State) -> Part
        requires { i ≤ length self.now.text.now }
        ensures spelled { Spells self.now.text.now i result.end result.count }
        ensures none { is_between state ≡ false → result.count ≡ 0 }
    {
        let s = self.text;
        let mut end = i;
        let mut count = 0;
        if !state.is_between() | is_inside(s, i) {
            return Part { end, count };
        }
        loop {
            let e = ordinary_end(s, end);
            let n = simple_count(&s[e..]);
            count += e - end + n;
            end = e + 2 * n;
            if n == 0 {
                return Part { end, count };
            }
        }
    }

    // A part at once and then a step, until one ends the literal. A `loop`: a step is as long as what was found. `put_string` and
    // `put_tolerant_notes` walk so too, and each takes another shortcut: one function for the three would have theirs for parameters.
    pub fn measure(&self, mode: Mode) -> Measure
        ensures { result ≡ measured 0 0 State.Between (literal_of mode self.now.text.now) }
    {
        let s = self.text;
        let mut i = 1;
        let mut count = 0;
        let mut reports = 0;
        let mut state = State::start();
        loop {
            let part = self.part_at(i, state);
            let e = part.end;
            count += part.count;
            // Most literals end here, and need no step.
            if base::peek(s, e) == b'"' {
                let stop = e + 1;
                return Measure {
                    count,
                    reports,
                    stop,
                    end: End::Closed,
                    state,
                };
            }
            let st = step_at(s, e, mode);
            match st {
                Step::Go {
                    encoded,
                    used,
                    reason,
                } => {
                    state = feed(state, encoded);
                    count += encoded.len;
                    reports += usize::from(reason.is_some());
                    i = e + used;
                }
                Step::Stop { end, stop } => {
                    return Measure {
                        count,
                        reports,
                        stop,
                        end,
                        state,
                    };
                }
            }
        }
    }
}
