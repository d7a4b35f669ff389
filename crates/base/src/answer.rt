// The answers of the calls: what was asked for, or a refusal.
ghost use Rattle.std.specs.Prelude.{◌≡◌, ℕ};
ghost use Rattle.base.specs.Answers.{answer_number, answer_value};

// What documents 01 and 02 give a number.
pub trait Numbered: Copy {
    ghost number_of: { Self → ℕ };

    // That number.
    fn number(self) -> u8
        ensures { result ≡ number_of self };
}

// The number of an answer: 0 where the call is accepted, which is the documents' own number for that.
pub fn number<T: Copy, E: Numbered>(answer: Result<T, E>) -> u8
    ensures { result ≡ answer_number E.number_of answer }
{
    match answer {
        Ok(_) => 0,
        Err(refusal) => refusal.number(),
    }
}

// The count that an answer gives: 0 where the call is refused, as the documents want of a number that a call does not give.
pub fn value<E: Copy>(answer: Result<usize, E>) -> usize
    ensures { result ≡ answer_value answer }
{
    answer.unwrap_or(0)
}
