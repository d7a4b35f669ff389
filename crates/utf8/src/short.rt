// Characters of one or two bytes: a window of bytes is tested at once.
ghost use Rattle.std.specs.Prelude.{◌≡◌, ◌≤◌, length};
ghost use Rattle.utf8.specs.Helpers.{in_short};
ghost use Rattle.utf8.specs.Onward.{Onward};

use crate::ascii::Ascii;
use crate::character::is_tail;
use base::runs::{Run, WINDOW, all};

// The bytes that can stand among characters of one or two bytes: a UTF8-tail follows the first byte of two, and no other byte.
#[derive(Clone, Copy)]
struct Short;

impl Run for Short {
    ghost has = { λ _. in_short };

    #[tactic(auto, unfolding(crate::specs::Helpers::in_short))]
    fn has(self, a: u8, b: u8) -> bool {
        (matches!(a, 0xC2..=0xDF) & is_tail(b)) | ((a < 0xC0) & !is_tail(b))
    }
}

// The end of the windows from `at` on that have only characters of one or two bytes. Each is tested with the byte after it, which ends the
// character that the window's last byte may begin.
#[tactic(auto, using(crate::proofs::Shorts::windows))]
pub fn past_short(text: &[u8], at: usize) -> usize
    requires { at ≤ length text.now }
    ensures { Onward text.now at result }
{
    let mut i = at;
    // A `while`: the step is a window, or a byte more.
    while WINDOW < text.len() - i {
        let end = i + WINDOW;
        let next = end + 1;
        let window = &text[i..next];
        if all(Ascii, window) {
            i = end;
        } else if !is_tail(text[i]) & all(Short, window) {
            i = end + usize::from(is_tail(text[end]));
        } else {
            return i;
        }
    }
    i
}
