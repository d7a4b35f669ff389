// Runs of bytes.
ghost use Rattle.std.specs.Prelude.{◌≡◌};
ghost use Rattle.base.specs.Runs.{past};
ghost use Rattle.scan.specs.Run.{in_blank, in_line, in_body, in_name, in_stamp, ends_timestamp, unit_piece};
ghost use Rattle.scan.specs.Helpers.{in_letters};

use base::class::{is_digit, is_ident_part, is_lower_alpha, is_space};
use base::kinds::{NAME, reach_kind};
use base::peek;
use base::runs::{Run, ShortRun, reach_bytes, reach_long};

// The blanks between tokens.
#[derive(Clone, Copy)]
pub struct Blank;

impl Run for Blank {
    ghost has = { λ _. in_blank };

    fn has(self, a: u8, _b: u8) -> bool {
        is_space(a)
    }
}

impl ShortRun for Blank {
    fn reach_on(self, s: &[u8], at: usize) -> usize {
        reach_long(self, s, at)
    }
}

// The bytes to the end of the line.
#[derive(Clone, Copy)]
pub struct Line;

impl Run for Line {
    ghost has = { λ _. in_line };

    fn has(self, a: u8, _b: u8) -> bool {
        a != b'\n'
    }
}

// The body of a block comment.
#[derive(Clone, Copy)]
pub struct Body;

impl Run for Body {
    ghost has = { λ _. in_body };

    fn has(self, a: u8, b: u8) -> bool {
        !((a == b'*') & (b == b'/'))
    }
}

// The bytes of a name.
#[derive(Clone, Copy)]
pub struct Name;

impl Run for Name {
    ghost has = { λ _. in_name };

    fn has(self, a: u8, _b: u8) -> bool {
        is_ident_part(a)
    }
}

impl ShortRun for Name {
    #[tactic(auto, unfolding(base::specs::Masks::kind_test))]
    fn reach_on(self, s: &[u8], at: usize) -> usize {
        reach_kind::<NAME>(s, at)
    }
}

// A timestamp.
#[derive(Clone, Copy)]
pub struct Stamp;

impl Run for Stamp {
    ghost has = { λ _. in_stamp };

    fn has(self, a: u8, b: u8) -> bool {
        !ends_timestamp(a, b)
    }
}

impl ShortRun for Stamp {
    fn reach_on(self, s: &[u8], at: usize) -> usize {
        reach_long(self, s, at)
    }
}

// Whether the byte `a`, with `b` after it, ends a timestamp.
#[tactic(auto, unfolding(crate::specs::Run::ends_timestamp))]
fn ends_timestamp(a: u8, b: u8) -> bool
    ensures { result ≡ ends_timestamp a b }
{
    is_space(a)
        | (a == b'\n')
        | (a == b',')
        | (a == b']')
        | (a == b'}')
        | (a == b')')
        | (a == b'#')
        | ((a == b'/') & ((b == b'/') | (b == b'*')))
}

// The digits and lower-case letters of a duration.
#[derive(Clone, Copy)]
struct LettersAndDigits;

impl Run for LettersAndDigits {
    ghost has = { λ _. in_letters };

    // Most bytes of a duration are such, and two branches are quicker for them than both tests joined by `|`.
    #[tactic(auto, using(std::proofs::lemmas::Bool::Decides::nat_tests), unfolding(base::specs::Classes::is_digit, base::specs::Classes::is_lower_alpha))]
    fn has(self, a: u8, _b: u8) -> bool {
        if a < b'a' {
            is_digit(a)
        } else {
            is_lower_alpha(a)
        }
    }
}

// The end of the run of a duration's pieces that starts at `at`. No `for`: a step is as long as the run of letters or the piece that it is over.
#[tactic(auto, using(crate::proofs::Runs::turns))]
pub fn past_units(s: &[u8], at: usize) -> usize
    ensures { result ≡ past unit_piece s.now at }
{
    let mut i = at;
    loop {
        i = reach_bytes(LettersAndDigits, s, i);
        let a = peek(s, i);
        if a == b'.' && is_digit(peek(s, i + 1)) {
            i += 1;
        } else if a == 0xC2 && peek(s, i + 1) == 0xB5 {
            i += 2;
        } else {
            return i;
        }
    }
}
