// The search for a byte.
ghost use Rattle.std.specs.Prelude.{◌≡◌};
ghost use Rattle.base.specs.Runs.{reach};
ghost use Rattle.base.specs.Blocks.{other};

use crate::runs::{Run, reach_long};

// The bytes other than one.
#[derive(Clone, Copy)]
struct Other {
    byte: u8,
}

impl Run for Other {
    ghost has = { λ run. other run.byte };

    fn has(self, a: u8, _b: u8) -> bool {
        a != self.byte
    }
}

// The offset of the first `c` from `at` on, or the end.
pub fn find(s: &[u8], c: u8, at: usize) -> usize
    ensures { result ≡ reach (other c) s.now at }
{
    reach_long(Other { byte: c }, s, at)
}
