// The tests of bytes that lexer.rs has, by the table of byte kinds; but for blanks, which are none of its kinds.
// Each test has a name and a definition of its own, and is one line by the table.
ghost use Rattle.std.specs.Prelude.{◌≡◌};
ghost use Rattle.base.specs.Classes.{is_digit, is_lower_alpha, is_ident_start, is_ident_part, is_duration_unit, is_space};
ghost use Rattle.base.specs.Kinds.{begins_unit};

use crate::kinds::{DIGIT, LETTER, NAME, UNIT, of_kind};

#[tactic(auto, unfolding(crate::specs::Masks::kind_test))]
pub fn is_digit(b: u8) -> bool
    ensures { result ≡ is_digit b }
{
    of_kind::<DIGIT>(b)
}

#[tactic(auto, unfolding(crate::specs::Masks::kind_test), using(crate::proofs::ByteKinds::lower_letter))]
pub fn is_lower_alpha(b: u8) -> bool
    ensures { result ≡ is_lower_alpha b }
{
    (b'a' <= b) & of_kind::<LETTER>(b)
}

#[tactic(auto, unfolding(crate::specs::Masks::kind_test, crate::specs::Classes::is_ident_start, crate::specs::Kinds::is_letter))]
pub fn is_ident_start(b: u8) -> bool
    ensures { result ≡ is_ident_start b }
{
    of_kind::<LETTER>(b) | (b == b'_')
}

#[tactic(auto, unfolding(crate::specs::Masks::kind_test))]
pub fn is_ident_part(b: u8) -> bool
    ensures { result ≡ is_ident_part b }
{
    of_kind::<NAME>(b)
}

// Whether a byte is the first of a unit, of `µs` too.
#[tactic(auto, unfolding(crate::specs::Masks::kind_test))]
pub fn begins_unit(b: u8) -> bool
    ensures { result ≡ begins_unit b }
{
    of_kind::<UNIT>(b)
}

pub fn is_duration_unit(b: u8) -> bool
    ensures { result ≡ is_duration_unit b }
{
    (b < 0x80) & begins_unit(b)
}

pub fn is_space(b: u8) -> bool
    ensures { result ≡ is_space b }
{
    (b == b' ') | (b == b'\t') | (b == b'\r')
}
