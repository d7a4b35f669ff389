// The six numbers of an answer: its values, and zeros.
#![tactic(auto, using(base::proofs::Signed::signed))]

ghost use Rattle.std.specs.Prelude.{◌≡◌, ◌<◌, List, ℕ};
ghost use Rattle.base.specs.Answers.{answer_number};
ghost use Rattle.reading.specs.Answers.{answer_values, counts_values, token_values, place_values};
ghost use Rattle.reading.specs.Refusals.{refusal_values};
ghost use Rattle.pxf.specs.Texts.{six_of};
ghost use Rattle.pxf.specs.Timestamps.{instant_numbers};
ghost use Rattle.pxf.specs.Helpers.{padded, one_of, no_values, Fit63};

use base::answer::Numbered;
use reading::counts::Counts;
use reading::one::OneToken;
use reading::refusal::Refusal;
use rfc3339::parse::Instant;
use token::place::Place;
use token_file::read::ReadRefusal;
use token_file::write::WriteRefusal;

// What a call gives, or why it is refused, as the numbers of an answer. Each type has an `impl` of its own: one for all refusals without a value could
// overlap those of types that other crates declare.
pub trait Values: Copy {
    ghost values_of: { Self → List ℕ };

    // Its values, and zeros.
    fn six(self) -> [usize; 6]
        ensures { result ≡ padded (values_of self) };
}

impl Values for usize {
    ghost values_of = { one_of };

    fn six(self) -> [usize; 6] {
        [self, 0, 0, 0, 0, 0]
    }
}

impl Values for Counts {
    ghost values_of = { counts_values };

    fn six(self) -> [usize; 6] {
        [self.tokens, self.strings, self.reports, 0, 0, 0]
    }
}

impl Values for OneToken {
    ghost values_of = { token_values };

    fn six(self) -> [usize; 6] {
        let Place {
            offset,
            line,
            column,
        } = self.end;
        [1, self.strings, self.reports, offset, line, column]
    }
}

impl Values for Place {
    ghost values_of = { place_values };

    fn six(self) -> [usize; 6] {
        [self.offset, self.line, self.column, 0, 0, 0]
    }
}

impl Values for Refusal {
    ghost values_of = { refusal_values };

    fn six(self) -> [usize; 6] {
        match self {
            Refusal::NotUtf8(at) => [at, 0, 0, 0, 0, 0],
            _ => [0; 6],
        }
    }
}

impl Values for suggest::call::Refusal {
    ghost values_of = { no_values };

    fn six(self) -> [usize; 6] {
        [0; 6]
    }
}

impl Values for WriteRefusal {
    ghost values_of = { no_values };

    fn six(self) -> [usize; 6] {
        [0; 6]
    }
}

impl Values for ReadRefusal {
    ghost values_of = { no_values };

    fn six(self) -> [usize; 6] {
        [0; 6]
    }
}

// Sets the six numbers of an answer. The casts lose nothing, as is required, where `try_from` would want a number for its error.
fn set(answer: &mut [i64; 6], values: [usize; 6])
    requires { Fit63 values }
    ensures { answer.new ≡ six_of values }
{
    let [a, b, c, d, e, f] = values;
    *answer = [a as i64, b as i64, c as i64, d as i64, e as i64, f as i64];
}

// Sets the six numbers of an answer, and gives its number.
pub fn give<T: Values, E: Values + Numbered>(r: Result<T, E>, answer: &mut [i64; 6]) -> u8
    requires { Fit63 (answer_values T.values_of E.values_of r) }
    ensures { (result ≡ answer_number E.number_of r) × (answer.new ≡ six_of (answer_values T.values_of E.values_of r)) }
{
    match r {
        Ok(given) => {
            set(answer, given.six());
            0
        }
        Err(refusal) => {
            set(answer, refusal.six());
            refusal.number()
        }
    }
}

// The values of an instant. Its seconds may lie below 0, so that it is no `Values`.
pub fn of_instant(r: Option<Instant>) -> [i64; 6]
    ensures { result ≡ instant_numbers r }
{
    match r {
        Some(Instant { seconds, nanos }) => [1, seconds, i64::from(nanos), 0, 0, 0],
        None => [0, 0, 0, 0, 0, 0],
    }
}
