// Lines of a text and the indent before them.
ghost use Rattle.std.specs.Prelude.{◌≡◌};
ghost use Rattle.triple_strings.specs.Dedent.{blank, strip};
ghost use Rattle.triple_strings.specs.Helpers.{LastLine};

// Nothing but White_Space.
#[tactic(auto, using(crate::proofs::LineScans::blanking))]
pub fn is_blank(t: &[u8]) -> bool
    ensures { result ≡ blank 0 t.now }
{
    let mut i = 0;
    // A `while`: the step is the length of the character.
    while i < t.len() {
        let Some(n) = utf8::character::white_size(&t[i..]) else {
            return false;
        };
        i += n;
    }
    true
}

// What stands before the last line, without the newline between them, and the last line.
pub fn split_last(t: &[u8]) -> (&[u8], &[u8])
    ensures { LastLine t.now result.0.now result.1.now }
{
    // By hand: `rposition` leaves goals that speak of the iterator's own steps, which did not close.
    for k in (0..t.len()).rev() {
        if t[k] == b'\n' {
            return (&t[..k], &t[k + 1..]);
        }
    }
    (&[], t)
}

// The line without the indent, where it has it. Inlined, and by a loop: `strip_prefix` is a call, which takes longer than a short line.
#[inline(always)]
#[tactic(auto, using(crate::proofs::Stripping::comparing))]
pub fn strip<'a>(indent: &[u8], line: &'a [u8]) -> &'a [u8]
    ensures { result.now ≡ strip indent.now line.now }
{
    let mut rest = line;
    for a in indent {
        match rest {
            [b, tail @ ..] if b == a => rest = tail,
            _ => return line,
        }
    }
    rest
}
