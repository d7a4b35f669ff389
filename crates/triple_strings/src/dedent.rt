// The dedent of a triple-quoted string: measured, and written.
ghost use Rattle.std.specs.Prelude.{◌≡◌, ◌≤◌, length};
ghost use Rattle.std.proofs.lemmas.List.Edits.{sets};
ghost use Rattle.triple_strings.specs.Dedent.{unlead, dedent};
ghost use Rattle.triple_strings.specs.Helpers.{stripped, after, OneLine};

use crate::lines::{is_blank, split_last, strip};

// What is left of a raw string: lines, and the indent that they lose.
#[derive(Clone, Copy)]
pub struct Dedent<'a> {
    body: &'a [u8],
    indent: &'a [u8],
    ghost one_line: { OneLine indent.now },
}

// Without one leading newline.
#[tactic(auto, using(crate::proofs::Stripping::unleading))]
fn unlead(raw: &[u8]) -> &[u8]
    ensures { result.now ≡ unlead raw.now }
{
    match raw {
        [b'\n', rest @ ..] => rest,
        _ => raw,
    }
}

impl<'a> Dedent<'a> {
    // A blank last line is the indent.
    pub fn of(raw: &'a [u8]) -> Self
        ensures { stripped result.indent.now result.body.now ≡ dedent raw.now }
    {
        let text = unlead(raw);
        let (body, last) = split_last(text);
        if is_blank(last) {
            Self { body, indent: last }
        } else {
            Self {
                body: text,
                indent: &[],
            }
        }
    }

    // What is left after a byte: after a newline the indent goes.
    #[inline(always)]
    fn after(&self, byte: u8, tail: &'a [u8]) -> &'a [u8]
        ensures { result.now ≡ after self.now.indent.now byte tail.now }
    {
        if byte == b'\n' {
            strip(self.indent, tail)
        } else {
            tail
        }
    }

    // Not inlined: the tokens before it in the lexer would take more instructions.
    #[inline(never)]
    pub fn len(&self) -> usize
        ensures { result ≡ length (stripped self.now.indent.now self.now.body.now) }
    {
        if self.indent.is_empty() {
            return self.body.len();
        }
        let mut size = 0;
        let mut rest = strip(self.indent, self.body);
        while let [byte, tail @ ..] = rest {
            size += 1;
            rest = self.after(*byte, tail);
        }
        size
    }

    // Writes it to the front of a buffer. Not inlined, either.
    #[inline(never)]
    pub fn put(&self, out: &mut [u8])
        requires { length (stripped self.now.indent.now self.now.body.now) ≤ length out.old }
        ensures { out.new ≡ sets out.old 0 (stripped self.now.indent.now self.now.body.now) }
    {
        if self.indent.is_empty() {
            base::copy(out, 0, self.body);
            return;
        }
        // Byte by byte: a `copy` of each line takes longer where lines are short.
        let mut end = 0;
        let mut rest = strip(self.indent, self.body);
        while let [byte, tail @ ..] = rest {
            out[end] = *byte;
            end += 1;
            rest = self.after(*byte, tail);
        }
    }
}
