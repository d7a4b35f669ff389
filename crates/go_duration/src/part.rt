// One part of a duration: a number and its unit.
ghost use Rattle.std.specs.Prelude.{◌≡◌};
ghost use Rattle.base.specs.Helpers.{nonzero};
ghost use Rattle.base.specs.Runs.{reach};
ghost use Rattle.go_duration.specs.Digits.{UnitNanos, acc_of};
ghost use Rattle.go_duration.specs.Units.{unit_of};
ghost use Rattle.go_duration.specs.Parse.{in_unit, part_of};
ghost use Rattle.go_duration.specs.Stages.{leading_int, fraction_at, fraction_stop, nanos_part};

use crate::fraction::{Fraction, leading_fraction};
use crate::{MOST, with_digit};
use base::class::is_digit;

// One part.
#[derive(Clone, Copy, PartialEq, Eq, Debug)]
pub struct Part {
    pub nanos: u64,
    // How many bytes it has.
    pub used: usize,
}

// The whole number at the front of a part.
#[derive(Clone, Copy, PartialEq, Eq, Debug)]
pub struct Whole {
    pub value: u64,
    // How many digits it has.
    pub used: usize,
}

// Go's `leadingInt`: the number of the digits at the front of `s`, unless it is above 2^63.
#[tactic(auto, using(crate::proofs::FrontDigits::reading))]
pub fn leading_int(s: &[u8]) -> Option<Whole>
    ensures { result ≡ leading_int s.now }
{
    let mut value = 0;
    for (used, c) in s.iter().enumerate() {
        if !is_digit(*c) {
            return Some(Whole { value, used });
        }
        value = with_digit(value, *c)?;
    }
    Some(Whole {
        value,
        used: s.len(),
    })
}

// How many bytes the unit at the front of `s` has: up to the next digit or point.
fn unit_size(s: &[u8]) -> usize
    ensures { result ≡ reach in_unit s.now 0 }
{
    s.iter()
        .position(|c| is_digit(*c) || *c == b'.')
        .unwrap_or(s.len())
}

// The nanoseconds of a unit.
#[tactic(auto, using(std::proofs::lemmas::Bool::Decides::nat_tests, crate::proofs::UnitLaws::unit_by))]
pub fn unit_of(u: &[u8]) -> Option<u64>
    ensures { result ≡ nonzero (unit_of u.now) }
{
    match u {
        b"ns" => Some(1),
        b"us" => Some(1000),
        // U+00B5 and U+03BC
        [0xC2, 0xB5, b's'] | [0xCE, 0xBC, b's'] => Some(1000),
        b"ms" => Some(1000000),
        b"s" => Some(1000000000),
        b"m" => Some(60000000000),
        b"h" => Some(3600000000000),
        _ => None,
    }
}

// The fraction at the front of `s`, if a point stands there, and how many bytes it has.
#[tactic(auto, unfolding(crate::specs::Stages::fraction_at, crate::specs::Stages::fraction_stop))]
fn fraction_at(s: &[u8]) -> (Fraction, usize)
    ensures digits { acc_of result.0.f result.0.kept result.0.count ≡ fraction_at 0 s.now }
    ensures ends { result.1 ≡ fraction_stop 0 s.now }
{
    match s {
        [b'.', rest @ ..] => {
            let digits = leading_fraction(rest);
            (digits, 1 + digits.count)
        }
        _ => (Fraction::start(), 0),
    }
}

// The nanoseconds of so many units and a fraction of one, unless they are above 2^63.
#[tactic(auto, using(crate::proofs::PartSteps::nanos_over, crate::proofs::PartSteps::nanos_sum))]
fn nanos_part(value: u64, digits: Fraction, unit: u64) -> Option<u64>
    requires { UnitNanos unit }
    ensures { result ≡ nanos_part value (acc_of digits.f digits.kept digits.count) unit }
{
    let nanos = value.checked_mul(unit)?.checked_add(digits.nanos(unit))?;
    (nanos <= MOST).then_some(nanos)
}

// The part at the front of `s`.
pub fn next_part(s: &[u8]) -> Option<Part>
    ensures { result ≡ part_of s.now }
{
    let Whole { value, used } = leading_int(s)?;
    let (digits, count) = fraction_at(&s[used..]);
    let end = used + count;
    if used == 0 && digits.count == 0 {
        return None;
    }
    let rest = &s[end..];
    let size = unit_size(rest);
    let unit = unit_of(&rest[..size])?;
    let nanos = nanos_part(value, digits, unit)?;
    Some(Part {
        nanos,
        used: end + size,
    })
}
