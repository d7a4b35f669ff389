// The whole reading of a text: it measures completely, then writes.
ghost use Rattle.std.specs.Prelude.{◌≡◌, length};
ghost use Rattle.reading.specs.Buffers.{whole_laid, counts_of};
ghost use Rattle.reading.specs.Calls.{ReadsText};
ghost use Rattle.reading.specs.Passes.{RoomIn, StoredIn, SameBuffers, most_counts};

use crate::counts::Counts;
use crate::judge::{Judged, judge};
use crate::put::Buffers;
use crate::refusal::Refusal;
use lexeme::Mode;
use lexer::cursor::Cursor;
use lexer::next::next_lexeme;
use lexer::reading::{Reading, Settings};
use token::place::Place;

impl Judged<'_> {
    // The first pass: it counts, and needs no places.
    fn measure(self, how: Settings) -> Counts
        ensures { result ≡ counts_of (whole_laid how.mode how.limit self.entry.text.now) }
    {
        let text = self.text;
        let mut counts = Counts::default();
        let mut at = 0;
        // A `loop`, as in `write`: the step is the length of the token that was found.
        'tokens: loop {
            let found = next_lexeme(text, at, how);
            let x = found.lexeme;
            counts.tokens += 1;
            if x.kind.is_eof() {
                return counts;
            }
            counts.count(x.kind, x.size, x.reports);
            at = found.start + x.len;
        }
    }

    // The second pass: each token's record, string and reports, one after the other. It counts too.
    fn write(self, how: Settings, buffers: &mut Buffers<'_>) -> Counts
        requires { RoomIn (whole_laid how.mode how.limit self.text.now) buffers.old }
        ensures same_buffers { SameBuffers buffers.old buffers.new }
        ensures counted { result ≡ counts_of (whole_laid how.mode how.limit self.entry.text.now) }
        ensures stored { StoredIn (whole_laid how.mode how.limit self.entry.text.now) buffers.old buffers.new }
    {
        let text = self.text;
        let mut counts = Counts::default();
        let mut place = Place::first();
        'tokens: loop {
            let here = Cursor { text, place };
            let t = here.each_token(how);
            buffers.put(text, t, how, counts);
            counts.tokens += 1;
            if t.kind.is_eof() {
                return counts;
            }
            counts.count(t.kind, t.size, t.reports);
            place = t.end;
        }
    }

    // The most that any text of its length can have: a token for each byte and the Eof, and reports in the tolerant mode alone.
    fn most(self, mode: Reading) -> Counts
        ensures { result ≡ most_counts mode (length self.entry.text.now) }
    {
        let len = self.text.len();
        Counts {
            tokens: len + 1,
            strings: len,
            reports: match Mode::from(mode) {
                Mode::Strict => 0,
                Mode::Tolerant => len,
            },
        }
    }
}

// Reads a whole text: the records of its tokens, its strings and its reports, each from the buffer's start. It measures first, but where the
// buffers suffice in any case. The buffers come as three slices: see `Buffers`.
pub fn read_text(
    text: &[u8],
    how: Settings,
    tokens: &mut [i64],
    strings: &mut [u8],
    reports: &mut [i64],
) -> Result<Counts, Refusal>
    ensures { ReadsText how.mode how.limit text.now tokens.old strings.old reports.old result tokens.new strings.new reports.new }
{
    judge(text)?;
    let judged = Judged { text };
    let mut buffers = Buffers {
        tokens,
        strings,
        reports,
    };
    if buffers.hold(judged.most(how.mode)).is_err() {
        buffers.hold(judged.measure(how))?;
    }
    Ok(judged.write(how, &mut buffers))
}
