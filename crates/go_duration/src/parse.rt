// The parts of a duration, and its sign.
ghost use Rattle.std.specs.Prelude.{◌≡◌, ◌≤◌};
ghost use Rattle.go_duration.specs.Fraction.{most};
ghost use Rattle.go_duration.specs.Parse.{sum_from, with_sign, parse_of};
ghost use Rattle.go_duration.specs.Stages.{parse_unsigned};

use crate::MOST;
use crate::part::{Part, next_part};

// The sum of the parts of `s`. A sum above 2^63 is refused before it is made, since it could wrap.
#[tactic(auto, using(crate::proofs::SumSteps::summing))]
pub fn sum(s: &[u8]) -> Option<u64>
    ensures { result ≡ sum_from 0 0 s.now }
{
    let mut d = 0;
    let mut rest = s;
    // A `while`: the step is the length of the part that was found.
    while !rest.is_empty() {
        let Part { nanos, used } = next_part(rest)?;
        if nanos > MOST - d {
            return None;
        }
        d += nanos;
        rest = &rest[used..];
    }
    Some(d)
}

// The finished sum under its sign, where an i64 holds it: 2^63 only under `-`. The sign comes beside the sum, since -2^63 has no positive i64.
fn signed(d: u64, neg: bool) -> Option<i64>
    requires { d ≤ most }
    ensures { result ≡ with_sign neg (Some d) }
{
    let d = i128::from(d);
    i64::try_from(if neg { -d } else { d }).ok()
}

// What `s`, the run after its sign, is under that sign.
#[tactic(auto, using(crate::proofs::RunSteps::runs))]
fn unsigned_run(s: &[u8], neg: bool) -> Option<i64>
    ensures { result ≡ parse_unsigned neg s.now }
{
    match s {
        [] => None,
        b"0" => Some(0),
        _ => signed(sum(s)?, neg),
    }
}

// The nanoseconds of a run, or none.
#[tactic(auto, using(crate::proofs::RunSteps::signs))]
pub fn parse(run: &[u8]) -> Option<i64>
    ensures { result ≡ parse_of run.now }
{
    match run {
        [b'-', rest @ ..] => unsigned_run(rest, true),
        [b'+', rest @ ..] => unsigned_run(rest, false),
        _ => unsigned_run(run, false),
    }
}
