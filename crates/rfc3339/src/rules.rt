// The rules of a date-time, each at its place in the run.
ghost use Rattle.std.specs.Prelude.{◌≡◌, true, ◌+◌, ◌≤◌, length, IfSome};
ghost use Rattle.base.specs.Classes.{is_digit};
ghost use Rattle.rfc3339.specs.Grammar.{digit_of, hour_end, secfrac_end};
ghost use Rattle.rfc3339.specs.Instant.{secfrac_digits, secfrac_nanos};
ghost use Rattle.rfc3339.specs.Helpers.{pair_by, full_date, hour_at, partial_time, time_offset, OffsetRange};

use crate::calendar::{days_from_civil, days_in_month};
use base::class::is_digit;
use base::digits::digits_end;
use base::peek;

// How many digits a second's nanoseconds have.
const NANO_DIGITS: usize = 9;

// The number of a digit. As an Option of any byte it costs five instructions for each digit of a fraction.
#[tactic(auto, using(base::proofs::Tests::digit_range))]
fn digit(b: u8) -> u8
    requires { is_digit b ≡ true }
    ensures number { result ≡ digit_of b }
    ensures at_most { result ≤ 9 }
{
    b - b'0'
}

// The number of two digits, where it is from `least` to `most`. A timestamp calls it six times or eight; as a function of its own it made them a tenth
// slower. A product of bytes, made wide afterwards, costs two instructions a call.
#[inline(always)]
#[tactic(auto, using(crate::proofs::Steps::pair_steps))]
fn pair(a: u8, b: u8, least: usize, most: usize) -> Option<usize>
    ensures number { result ≡ pair_by least most a b }
    ensures range { IfSome result (λ n. (least ≤ n) × (n ≤ most)) }
{
    if !(is_digit(a) & is_digit(b)) {
        return None;
    }
    let n = usize::from(digit(a)) * 10 + usize::from(digit(b));
    (least..=most).contains(&n).then_some(n)
}

// A year, a month and a day: the days from 0000-01-01.
#[tactic(auto, using(crate::proofs::Steps::date_steps, crate::proofs::Steps::date_short, crate::proofs::Fields::last_day))]
pub fn full_date(s: &[u8]) -> Option<usize>
    ensures days { result ≡ full_date s.now }
    ensures at_most { IfSome result (λ n. n ≤ 3652424) }
{
    let &[c1, c2, y1, y2, b'-', m1, m2, b'-', d1, d2, ..] = s else {
        return None;
    };
    let year = pair(c1, c2, 0, 99)? * 100 + pair(y1, y2, 0, 99)?;
    let month = pair(m1, m2, 1, 12)?;
    let day = pair(d1, d2, 1, days_in_month(year, month))?;
    Some(days_from_civil(year, month, day))
}

// The hour, of one digit or two. Here and in `FullTime` bytes are read by place: patterns of slices were tried, and left fourteen goals open.
#[tactic(auto, using(crate::proofs::Steps::hour_steps))]
fn hour(s: &[u8]) -> Option<usize>
    ensures number { result ≡ hour_at s.now }
    ensures at_most { IfSome result (λ n. n ≤ 23) }
{
    let a = peek(s, 11);
    let b = peek(s, 12);
    if is_digit(b) {
        return pair(a, b, 0, 23);
    }
    is_digit(a).then(|| usize::from(digit(a)))
}

// Where the hour ends.
#[tactic(auto, unfolding(crate::specs::Grammar::hour_end))]
fn hour_end(s: &[u8]) -> usize
    ensures { result ≡ hour_end s.now }
{
    if is_digit(peek(s, 12)) {
        return 13;
    }
    12
}

// The seconds of the time of day. Not of a `FullTime`, whose making passes all digits of a fraction: a run without a time of day is refused before that.
#[tactic(auto, using(crate::proofs::Steps::time_steps, crate::proofs::Places::hour_end_le))]
pub fn partial_time(s: &[u8]) -> Option<usize>
    ensures seconds { result ≡ partial_time s.now }
    ensures at_most { IfSome result (λ n. n ≤ 86399) }
{
    let h = hour_end(s);
    let hour = hour(s)?;
    if (peek(s, h) != b':') | (peek(s, h + 3) != b':') {
        return None;
    }
    let minute = pair(peek(s, h + 1), peek(s, h + 2), 0, 59)?;
    let second = pair(peek(s, h + 4), peek(s, h + 5), 0, 59)?;
    Some(hour * 3600 + minute * 60 + second)
}

// Where the fraction of the second ends: after a mark and all the digits there, or at once.
#[tactic(auto, using(crate::proofs::Places::hour_end_le), unfolding(crate::specs::Grammar::secfrac_end, crate::specs::Grammar::has_secfrac))]
fn fraction_end(s: &[u8]) -> usize
    ensures { result ≡ secfrac_end s.now }
{
    let f = hour_end(s) + 6;
    let mark = peek(s, f);
    if ((mark == b'.') | (mark == b',')) & is_digit(peek(s, f + 1)) {
        return digits_end(s, f + 1);
    }
    f
}

// The full-time of a run, time of day and offset, with where its hour ends and where the fraction of its second ends. Both places are near the run, so
// that sums on them fit.
#[derive(Clone, Copy)]
pub struct FullTime<'a> {
    pub run: &'a [u8],
    pub after_hour: usize,
    pub after_fraction: usize,
    ghost hour: { after_hour ≡ hour_end run.now },
    ghost fraction: { after_fraction ≡ secfrac_end run.now },
    ghost hour_near: { after_hour ≤ 13 },
    ghost fraction_near: { after_fraction ≤ length run.now + 19 },
}

impl<'a> FullTime<'a> {
    #[tactic(auto, using(crate::proofs::Places::hour_end_le, crate::proofs::Places::fraction_end_le))]
    pub fn new(run: &'a [u8]) -> FullTime<'a>
        ensures { result.run.now ≡ run.now }
    {
        FullTime {
            run,
            after_hour: hour_end(run),
            after_fraction: fraction_end(run),
        }
    }

    // The nanoseconds of the fraction: its first nine digits, and zeros where there are fewer.
    #[tactic(auto, using(crate::proofs::Nanos::nanos_laws))]
    pub fn nanos(&self) -> u32
        ensures { result ≡ secfrac_nanos (secfrac_digits self.now.run.now) }
    {
        let start = self.after_hour + 7;
        let mut n = 0;
        for k in 0..NANO_DIGITS {
            n *= 10;
            if start + k < self.after_fraction {
                n += u32::from(digit(self.run[start + k]));
            }
        }
        n
    }

    // The offset, to the end of the run: the seconds that local time is ahead of UTC.
    #[tactic(auto, using(crate::proofs::Steps::offset_steps))]
    pub fn time_offset(&self) -> Option<i64>
        ensures seconds { result ≡ time_offset self.now.run.now }
        ensures range { IfSome result OffsetRange }
    {
        let s = self.run;
        let z = self.after_fraction;
        let mark = peek(s, z);
        if mark == b'Z' {
            return (s.len() == z + 1).then_some(0);
        }
        let marks = ((mark == b'+') | (mark == b'-')) & (peek(s, z + 3) == b':');
        if !(marks & (s.len() == z + 6)) {
            return None;
        }
        let hour = pair(peek(s, z + 1), peek(s, z + 2), 0, 24)?;
        let minute = pair(peek(s, z + 4), peek(s, z + 5), 0, 60)?;
        // At most 90,000, so that the cast loses nothing.
        let seconds = (hour * 3600 + minute * 60) as i64;
        Some(if mark == b'-' { -seconds } else { seconds })
    }
}
