// The digits of a number.
ghost use Rattle.std.specs.Prelude.{◌≡◌};
ghost use Rattle.base.specs.Runs.{reach};
ghost use Rattle.base.specs.Digits.{in_digits};

use crate::class::is_digit;
use crate::kinds::{DIGIT, reach_kind};
use crate::runs::{Run, ShortRun, reach_run};

// The bytes of a whole number.
#[derive(Clone, Copy)]
pub struct Digits;

impl Run for Digits {
    ghost has = { λ _. in_digits };

    fn has(self, a: u8, _b: u8) -> bool {
        is_digit(a)
    }
}

impl ShortRun for Digits {
    fn reach_on(self, s: &[u8], at: usize) -> usize {
        reach_kind::<DIGIT>(s, at)
    }
}

// The end of the digits from `at` on.
pub fn digits_end(s: &[u8], at: usize) -> usize
    ensures { result ≡ reach in_digits s.now at }
{
    reach_run(Digits, s, at)
}
