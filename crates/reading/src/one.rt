// One token from a place.
ghost use Rattle.std.specs.Prelude.{◌≡◌};
ghost use Rattle.reading.specs.Answers.{is_place};
ghost use Rattle.reading.specs.Calls.{ReadsToken};

use crate::counts::Counts;
use crate::judge::{Judged, judge};
use crate::place::good_offset;
use crate::put::Buffers;
use crate::refusal::Refusal;
use lexer::cursor::Cursor;
use lexer::next::string_size;
use lexer::reading::Settings;
use token::layout::RECORD_WIDTH;
use token::place::{Place, walk};

// How many string bytes and reports one token has, and the place at its end.
#[derive(Clone, Copy)]
pub struct OneToken {
    pub strings: usize,
    pub reports: usize,
    pub end: Place,
}

impl Judged<'_> {
    // Whether a place is one of the text, with its line and column. Any numbers may come.
    #[tactic(auto, unfolding(crate::specs::Answers::is_place))]
    fn is_place(self, place: Place) -> bool
        ensures { result ≡ is_place self.entry.text.now place }
    {
        let text = self.text;
        good_offset(text, place.offset) && place == walk(text, Place::first(), place.offset)
    }
}

// Reads the token after a place: its record, its string and its reports, each from the buffer's start. The buffers come as three slices: see
// `Buffers`.
pub fn read_token(
    text: &[u8],
    place: Place,
    how: Settings,
    tokens: &mut [i64],
    strings: &mut [u8],
    reports: &mut [i64],
) -> Result<OneToken, Refusal>
    ensures { ReadsToken how.mode how.limit text.now place tokens.old strings.old reports.old result tokens.new strings.new reports.new }
{
    judge(text)?;
    let judged = Judged { text };
    if !judged.is_place(place) {
        return Err(Refusal::NoPlace);
    }
    // Check 4 comes before the token is read, which may be long: a slice that holds no record needs none.
    if tokens.len() < RECORD_WIDTH {
        return Err(Refusal::TokensShort);
    }
    let here = Cursor { text, place };
    let t = here.next_token(how);
    let counts = Counts {
        tokens: 1,
        strings: string_size(t.kind, t.size),
        reports: t.reports,
    };
    let mut buffers = Buffers {
        tokens,
        strings,
        reports,
    };
    buffers.hold(counts)?;
    buffers.put(text, t, how, Counts::default());
    Ok(OneToken {
        strings: counts.strings,
        reports: counts.reports,
        end: t.end,
    })
}
