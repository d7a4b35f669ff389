// The nanoseconds of a duration, as go_duration.rs reads them.
#![tactic(auto)]

ghost use Rattle.std.specs.Prelude.{◌≡◌, IsTrue};
ghost use Rattle.base.specs.Choice.{pick};
ghost use Rattle.base.specs.Classes.{is_digit};
ghost use Rattle.go_duration.specs.Fraction.{more, room};

pub mod fraction;
pub mod parse;
pub mod part;

// 2^63, the bound on numbers, products and sums.
const MOST: u64 = 9223372036854775808;

// `x` with the digit `c` behind it, unless that is above 2^63. The first test stands before the sum, which could wrap.
#[tactic(auto, using(base::proofs::Tests::digit_range))]
fn with_digit(x: u64, c: u8) -> Option<u64>
    requires { IsTrue (is_digit c) }
    ensures { result ≡ pick (room x c) (Some (more x c)) None }
{
    if x > MOST / 10 {
        return None;
    }
    let longer = x * 10 + u64::from(c - b'0');
    (longer <= MOST).then_some(longer)
}
