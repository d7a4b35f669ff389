// The check one byte at a time, for bytes that stand in no slice.
ghost use Rattle.std.specs.Prelude.{◌≡◌, ◌≤◌};
ghost use Rattle.base.specs.Bytes.{within};
ghost use Rattle.utf8.specs.State.{length_of, lead_of, is_between, push, push_all};

// What the character that has begun still wants.
#[derive(Clone, Copy, PartialEq, Eq, Debug)]
pub enum State {
    // No character has begun.
    Between,
    // A byte from `lo` to `hi`, and then `tails` bytes of UTF8-tail.
    Wants { lo: u8, hi: u8, tails: u8 },
    // No character begins or goes on so, and it stays so.
    IllFormed,
}

// Whether `a` can be the first byte of a character of several.
pub fn is_first(a: u8) -> bool
    ensures { result ≡ within 0xC2 0xF4 a }
{
    matches!(a, 0xC2..=0xF4)
}

// The length of the character that begins with `a`, the first byte of several: its leading one bits, counted as the leading zeros of 255
// minus it.
pub fn length_of(a: u8) -> usize
    requires { (0xC2 ≤ a) × (a ≤ 0xF4) }
    ensures { result ≡ length_of a }
{
    // A cast: at most eight, and `usize` has no `From<u32>`.
    u8::leading_zeros(255 - a) as usize
}

impl State {
    // Between characters. No `Default`: that would not say in which state a check begins.
    pub fn start() -> State
        ensures { result ≡ State.Between }
    {
        State::Between
    }

    // Whether no character has begun.
    pub fn is_between(self) -> bool
        ensures { result ≡ is_between self }
    {
        matches!(self, State::Between)
    }

    // What the first byte of a character wants after it.
    #[tactic(auto, unfolding(crate::specs::State::lead_of, crate::specs::Grammar::utf8_char), using(crate::proofs::Sizes::leading))]
    pub(crate) fn lead(a: u8) -> State
        ensures { result ≡ lead_of a }
    {
        if a < 0x80 {
            return State::Between;
        }
        if !is_first(a) {
            return State::IllFormed;
        }
        // a smaller second byte would make an overlong form, a greater one a surrogate or a value above 0x10FFFF
        let (lo, hi, tails) = match length_of(a) {
            2 => (0x80, 0xBF, 0),
            3 => match a {
                0xE0 => (0xA0, 0xBF, 1),
                0xED => (0x80, 0x9F, 1),
                _ => (0x80, 0xBF, 1),
            },
            _ => match a {
                0xF0 => (0x90, 0xBF, 2),
                0xF4 => (0x80, 0x8F, 2),
                _ => (0x80, 0xBF, 2),
            },
        };
        State::Wants { lo, hi, tails }
    }

    // The state after one byte more.
    #[tactic(auto, unfolding(crate::specs::State::push), using(crate::proofs::States::pushing))]
    pub fn push(self, b: u8) -> State
        ensures { result ≡ push self b }
    {
        match self {
            State::Between => State::lead(b),
            State::Wants { lo, hi, tails } => {
                if !(lo..=hi).contains(&b) {
                    return State::IllFormed;
                }
                if tails == 0 {
                    return State::Between;
                }
                State::Wants {
                    lo: 0x80,
                    hi: 0xBF,
                    tails: tails - 1,
                }
            }
            State::IllFormed => State::IllFormed,
        }
    }

    // The state after all of some bytes.
    pub fn push_all(self, bytes: &[u8]) -> State
        ensures { result ≡ push_all self bytes.now }
    {
        let mut state = self;
        // A `for`: as a `fold` it took seven instructions more for two bytes.
        for b in bytes {
            state = state.push(*b);
        }
        state
    }
}
