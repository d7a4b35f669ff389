// Writing the reports of a string literal.
ghost use Rattle.std.specs.Prelude.{◌≡◌, [], ◌∷◌, ◌+◌, ◌≤◌, length, MatchOption};
ghost use Rattle.std.proofs.lemmas.List.Edits.{sets};
ghost use Rattle.token.specs.Place.{place_at};
ghost use Rattle.token.specs.Helpers.{Walkable};
ghost use Rattle.token.specs.Layout.{report_width, report_numbers};
ghost use Rattle.lexeme.specs.Lexeme.{note_at_start};
ghost use Rattle.lexeme.specs.Reports.{report_at};
ghost use Rattle.lexeme.specs.declared.Mode.TheVariants as M;
ghost use Rattle.strings.specs.Decode.{letter_detail};
ghost use Rattle.strings.specs.Literal.{end_notes};
ghost use Rattle.strings.specs.Helpers.{string_numbers, NotesFit};

use crate::literal::{End, Step, ordinary_end, step_at};
use crate::piece::BadEscape;
use lexeme::{Mode, put_report};
use token::layout::REPORT_WIDTH;
use token::place::{Place, walk};
use token::reason::Reason;

// The reason of the report that a tolerant ending makes.
#[tactic(auto, unfolding(crate::specs::Literal::end_notes))]
pub(crate) fn end_report(end: End) -> Option<Reason>
    ensures { MatchOption result (end_notes end ≡ []) (λ reason. end_notes end ≡ note_at_start reason ∷ []) }
{
    match end {
        End::Closed | End::Bad(_) => None,
        End::AtNewline => Some(Reason::StringEndedAtNewline),
        End::Cut => Some(Reason::OpenEscape),
        End::Open => Some(Reason::OpenString),
    }
}

// Stores the reports of the tolerant literal that starts at a place of the text, from `at` on. Offsets stay, since `walk` goes from a place of the whole
// text to the next, and `put_report` stores at an index.
fn put_tolerant_notes(text: &[u8], start: Place, out: &mut [i64], at: usize)
    requires { NotesFit M.Tolerant text.now start out.old at }
    ensures { out.new ≡ sets out.old at (string_numbers M.Tolerant text.now start.offset) }
{
    let first = start.offset;
    let s = &text[first..];
    let mut i = 1;
    let mut p = at;
    let mut place = start;
    // A `loop`: a step is as long as what was found.
    loop {
        let e = ordinary_end(s, i);
        let st = step_at(s, e, Mode::Tolerant);
        match st {
            Step::Go {
                encoded,
                used,
                reason,
            } => {
                i = e + used;
                let Some(reason) = reason else {
                    continue;
                };
                // Its numbers one by one: loaded together, they wait until `walk` has stored each.
                let Place {
                    offset,
                    line,
                    column,
                } = walk(text, place, first + e + 1);
                place = Place {
                    offset,
                    line,
                    column,
                };
                let escape = BadEscape {
                    reason,
                    letter: encoded.bytes[1],
                };
                put_report(place, reason.number(), escape.detail(), out, p);
                p += REPORT_WIDTH;
            }
            Step::Stop { end, stop: _ } => {
                if let Some(reason) = end_report(end) {
                    put_report(start, reason.number(), 0, out, p);
                }
                return;
            }
        }
    }
}

// Stores the reports of the literal that starts at a place of the text, from `at` on. A strict literal has none.
#[tactic(auto, unfolding(crate::specs::Literal::string_notes, crate::specs::Literal::literal_notes, lexeme::specs::Helpers::notes_numbers))]
pub fn put_string_notes(text: &[u8], start: Place, mode: Mode, out: &mut [i64], at: usize)
    requires { NotesFit mode text.now start out.old at }
    ensures { out.new ≡ sets out.old at (string_numbers mode text.now start.offset) }
{
    match mode {
        Mode::Strict => (),
        Mode::Tolerant => put_tolerant_notes(text, start, out, at),
    }
}
