// The candidates, in the order of offset and byte, and what each of them gives.
ghost use Rattle.std.specs.Prelude.{◌≡◌, ◌*◌, ◌≤◌, ◌<◌, length};
ghost use Rattle.suggestion_list.specs.Helpers.{SameList};
ghost use Rattle.suggest.specs.Suggestions.{byte_count, suggestions_of};
ghost use Rattle.suggest.specs.Calls.{longest_run};
ghost use Rattle.suggest.specs.Helpers.{can_stand, Cut, ByteTried, OffsetTried, AllTried};

use crate::pieces::{Around, see_around, surroundings};
use crate::run::{LONGEST, ShortRun};
use base::class::{is_digit, is_duration_unit};
use suggestion_list::{Suggestion, Suggestions};

// The printable ASCII bytes are those from the first to the last.
const FIRST: u8 = 0x20;

const LAST: u8 = 0x7E;

// How many there are.
pub const BYTES: usize = (LAST - FIRST) as usize + 1;

// Whether a printable byte can stand in a text where one Duration is all that is seen.
fn can_stand(b: u8) -> bool
    ensures { result ≡ can_stand b }
{
    is_digit(b) | is_duration_unit(b) | (b == b' ') | (b == b'-') | (b == b'.')
}

// Adds what the text gives, which is the run with this byte at this offset, of which the surroundings are known.
fn try_byte(text: &[u8], offset: u16, byte: u8, around: Around, found: &mut Suggestions<'_>)
    requires { (found.old.count < 0x10000) × Cut text.now around }
    ensures same_list { SameList found.old found.new }
    ensures tried { ByteTried text.now offset byte found.old.list.now found.old.count found.new.list.now found.new.count }
{
    if let Some(nanos) = see_around(text, around) {
        found.add(Suggestion {
            nanos,
            offset,
            byte,
        });
    }
}

// Adds what each printable byte other than the run's own gives at the offset `i`. The run is as it was afterwards. The cast loses nothing, as is required:
// `try_from` would add a case that cannot come.
fn try_offset(run: &mut [u8], i: usize, found: &mut Suggestions<'_>)
    requires { (i < length run.old) × (length run.old ≤ longest_run) × (found.old.count ≤ i * byte_count) }
    ensures same_run { run.new ≡ run.old }
    ensures same_list { SameList found.old found.new }
    ensures tried { OffsetTried run.old i found.old.list.now found.old.count found.new.list.now found.new.count }
{
    let around = surroundings(run, i);
    let own = run[i];
    for b in FIRST..=LAST {
        if (b != own) & can_stand(b) {
            run[i] = b;
            try_byte(run, i as u16, b, around, found);
        }
    }
    run[i] = own;
}

// The same at each offset of a run, which is copied to the front of a lent text first. The compiler does not know that this text lies apart from the run;
// where it knows, as where this has one caller and becomes a part of it, it calls the C library for the copy, and the archive needs no other library.
fn try_offsets(run: ShortRun<'_>, text: &mut [u8], found: &mut Suggestions<'_>)
    requires { (length run.bytes.now ≤ length text.old) × (found.old.count ≡ 0) }
    ensures same_list { SameList found.old found.new }
    ensures tried { AllTried run.entry.bytes.now found.old.list.now found.new.list.now found.new.count }
{
    let bytes = run.bytes;
    let n = bytes.len();
    base::copy(text, 0, bytes);
    let copy = &mut text[..n];
    for i in 0..n {
        try_offset(copy, i, found);
    }
}

// Counts the suggestions for a run, and fills the list with them where it has room for all.
pub fn fill_all(run: ShortRun<'_>, list: &mut [i64]) -> usize
    ensures { AllTried run.entry.bytes.now list.old list.new result }
{
    let mut text = [0u8; LONGEST];
    let mut found = Suggestions::new(list);
    try_offsets(run, &mut text, &mut found);
    found.count
}

// Counts them alone: an empty list has no room for any.
pub fn count_all(run: ShortRun<'_>) -> usize
    ensures { result ≡ length (suggestions_of run.entry.bytes.now) }
{
    let mut text = [0u8; LONGEST];
    let mut found = Suggestions::new(&mut []);
    try_offsets(run, &mut text, &mut found);
    found.count
}
