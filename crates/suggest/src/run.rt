// The runs that are taken.
ghost use Rattle.std.specs.Prelude.{◌≡◌, ◌≤◌, MatchOption, false, length};
ghost use Rattle.suggest.specs.Calls.{longest_run, good_run};
ghost use Rattle.suggest.specs.Helpers.{RunTaken};

use utf8::check::check;

// The longest of them.
pub const LONGEST: usize = 64;

// A run that is not too long.
#[derive(Clone, Copy, PartialEq, Eq, Debug)]
pub struct ShortRun<'a> {
    pub bytes: &'a [u8],
    ghost short: { length bytes.now ≤ longest_run },
}

impl<'a> ShortRun<'a> {
    // The run, unless it is empty, too long or not UTF-8.
    pub fn parse(bytes: &'a [u8]) -> Option<Self>
        ensures { MatchOption result (good_run bytes.now ≡ false) (λ r. RunTaken bytes.now r.bytes.now) }
    {
        let 1..=LONGEST = bytes.len() else {
            return None;
        };
        check(bytes).ok()?;
        Some(Self { bytes })
    }
}
