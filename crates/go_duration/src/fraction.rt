// The fraction of a duration: its digits, and its nanoseconds in floating point.
ghost use Rattle.std.specs.Prelude.{◌≡◌, ◌<◌, ◌≤◌, ◌^◌};
ghost use Rattle.base.specs.Runs.{reach};
ghost use Rattle.go_duration.specs.Fraction.{most, scale_of, frac_of, no_digits, read_digits};
ghost use Rattle.go_duration.specs.Digits.{UnitNanos, acc_of, is_zero};

use crate::with_digit;
use base::digits::digits_end;
use std::num::{nearest_u64_to_f64, truncating_f64_to_u64};

// 1.0 multiplied so many times by 10.0 is infinite.
const INFINITE: usize = 309;

// A fraction's digits: the number that the kept ones form, how many those are, and how many there are.
#[derive(Clone, Copy, PartialEq, Eq, Debug)]
pub struct Fraction {
    pub f: u64,
    pub kept: usize,
    pub count: usize,
    pub ghost fits: { f ≤ most },
    pub ghost digits: { f < 10 ^ kept },
}

impl Fraction {
    // No digits yet. `Default` cannot be derived for a struct with ghost fields.
    pub fn start() -> Self
        ensures { acc_of result.f result.kept result.count ≡ no_digits }
    {
        Self {
            f: 0,
            kept: 0,
            count: 0,
        }
    }

    // Its nanoseconds, of a unit: the quotient first, each step rounded once, and the result truncated.
    pub(crate) fn nanos(self, unit: u64) -> u64
        requires { UnitNanos unit }
        ensures { result ≡ frac_of (acc_of self.f self.kept self.count) unit }
    {
        if self.f == 0 {
            return 0;
        }
        let size = nearest_u64_to_f64(unit);
        let quotient = size / scale_of(self.kept);
        let product = nearest_u64_to_f64(self.f) * quotient;
        truncating_f64_to_u64(product)
    }
}

// 1.0 multiplied `k` times by 10.0. An infinity stays one.
#[tactic(auto, unfolding(crate::specs::Fraction::scale_of), using(crate::proofs::Scales::scaling))]
fn scale_of(k: usize) -> f64
    ensures { result ≡ scale_of k }
{
    let mut scale = 1.0;
    for _ in 0..k.min(INFINITE) {
        scale *= 10.0;
    }
    scale
}

// How many zeros stand at the front of `s`.
fn zeros(s: &[u8]) -> usize
    ensures { result ≡ reach is_zero s.now 0 }
{
    s.iter().position(|c| *c != b'0').unwrap_or(s.len())
}

// Go's `leadingFraction`: the digits at the front of `s`. The zeros there, which may be many, form 0 and need no sums, and neither do the digits
// behind one that does not fit.
#[tactic(auto, using(crate::proofs::DigitSteps::keeping))]
pub fn leading_fraction(s: &[u8]) -> Fraction
    ensures { acc_of result.f result.kept result.count ≡ read_digits s.now no_digits }
{
    let zeros = zeros(s);
    let count = digits_end(s, zeros);
    let mut f = 0;
    for kept in zeros..count {
        let Some(longer) = with_digit(f, s[kept]) else {
            return Fraction { f, kept, count };
        };
        f = longer;
    }
    Fraction {
        f,
        kept: count,
        count,
    }
}
