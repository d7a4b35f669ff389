// Runs of ASCII bytes, which are whole characters.
ghost use Rattle.std.specs.Prelude.{◌≡◌, ◌≤◌, length};
ghost use Rattle.base.specs.Runs.{reach};
ghost use Rattle.utf8.specs.Helpers.{in_ascii};

use base::runs::{Run, past_blocks, past_window, reach_bytes};

// UTF8-1.
#[derive(Clone, Copy)]
pub struct Ascii;

impl Run for Ascii {
    ghost has = { λ _. in_ascii };

    fn has(self, a: u8, _b: u8) -> bool {
        a < 0x80
    }
}

// The end of the run of ASCII bytes from `at` on: by blocks as long as there are any, and in the window after them. Cold, so that it lies apart from the
// loop over longer characters that calls it: inlined there, it costs each of those a jump more.
#[cold]
pub fn past_ascii(text: &[u8], at: usize) -> usize
    requires { at ≤ length text.now }
    ensures { result ≡ reach in_ascii text.now at }
{
    let i = past_blocks(Ascii, text, at);
    reach_bytes(Ascii, text, past_window(Ascii, text, i))
}
