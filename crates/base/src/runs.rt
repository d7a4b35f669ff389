// The ends of runs of bytes, searched a block or a window of bytes at a time. A search goes on in the same bytes where another one ended, so each takes
// an offset beside them.
ghost use Rattle.std.specs.Prelude.{◌≡◌, ℕ, Bool, ◌≤◌, ◌<◌, ◌+◌, length};
ghost use Rattle.base.specs.Runs.{reach};
ghost use Rattle.base.specs.Blocks.{all_pairs, window_run, Ahead};

// How many bytes a block has, wherever bytes are tested or copied by blocks.
pub const BLOCK: usize = 16;

// How many bytes a window has, wherever the first byte that is not in a run is searched in one.
pub const WINDOW: usize = 64;

// A window and the byte after it.
const AHEAD: usize = WINDOW + 1;

// The index of no byte of a window, in a byte as the others.
const NONE: u8 = WINDOW as u8;

// The bytes of a run.
pub trait Run: Copy {
    ghost has: { Self → ℕ → ℕ → Bool };

    // Whether the byte `a`, with `b` after it (0 past the end), belongs to the run.
    fn has(self, a: u8, b: u8) -> bool
        ensures { result ≡ has self a b };
}

// A run that is often short.
pub trait ShortRun: Run {
    // The end of the run where it has gone on to `at`.
    fn reach_on(self, s: &[u8], at: usize) -> usize
        requires { at ≤ length s.now }
        ensures { result ≡ reach (Self.has self) s.now at };
}

// Whether each byte but the last belongs to the run. It looks at every byte, so that several can be tested by one instruction.
pub fn all<R: Run>(run: R, s: &[u8]) -> bool
    ensures { result ≡ all_pairs (R.has run) s.now }
{
    let mut all = true;
    for i in 1..s.len() {
        all &= run.has(s[i - 1], s[i]);
    }
    all
}

// The end of the blocks from `at` on that belong to the run. Each is tested with the byte after it.
pub fn past_blocks<R: Run>(run: R, s: &[u8], at: usize) -> usize
    requires { at ≤ length s.now }
    ensures { Ahead (R.has run) s.now at result }
{
    let mut i = at;
    // A `while`, as in `past_windows`: a block is tested with the byte after it, so that chunks of the library would overlap.
    while BLOCK < s.len() - i {
        let end = i + BLOCK;
        let next = end + 1;
        if !all(run, &s[i..next]) {
            return i;
        }
        i = end;
    }
    i
}

// How many bytes of a window, which has one more after it, belong to the run: the first that does not is searched by the least index. The search has
// no branch, so that several bytes can be tested by one instruction; of indices that are bytes it compares the most at once.
fn window_count<R: Run>(run: R, s: &[u8; AHEAD]) -> usize
    ensures { result ≡ window_run (R.has run) s.now }
{
    let mut m = NONE;
    for j in 0..NONE {
        let i = usize::from(j);
        let k = if run.has(s[i], s[i + 1]) { NONE } else { j };
        m = m.min(k);
    }
    usize::from(m)
}

// The end of the run in the window at `at`, where there is a whole one.
pub fn past_window<R: Run>(run: R, s: &[u8], at: usize) -> usize
    requires { at ≤ length s.now }
    ensures { Ahead (R.has run) s.now at result }
{
    match s[at..].first_chunk::<AHEAD>() {
        Some(window) => at + window_count(run, window),
        None => at,
    }
}

// The end of the windows from `at` on that belong to the run, and of the run in the window after them.
pub fn past_windows<R: Run>(run: R, s: &[u8], at: usize) -> usize
    requires { at ≤ length s.now }
    ensures { Ahead (R.has run) s.now at result }
{
    let mut i = at;
    while WINDOW < s.len() - i {
        let end = past_window(run, s, i);
        if end - i != WINDOW {
            return end;
        }
        i = end;
    }
    i
}

// The end of the run that starts at `at`, for runs that are often long.
pub fn reach_long<R: Run>(run: R, s: &[u8], at: usize) -> usize
    ensures { result ≡ reach (R.has run) s.now at }
{
    if s.len() < at {
        return at;
    }
    reach_bytes(run, s, past_blocks(run, s, at))
}

// The same, one byte at a time.
pub fn reach_bytes<R: Run>(run: R, s: &[u8], at: usize) -> usize
    ensures { result ≡ reach (R.has run) s.now at }
{
    for i in at..s.len() {
        if !run.has(s[i], crate::peek(s, i + 1)) {
            return i;
        }
    }
    s.len().max(at)
}

// The same, for runs that are often short: it is small, and goes on by blocks only where a run is long.
pub fn reach_run<R: ShortRun>(run: R, s: &[u8], at: usize) -> usize
    ensures { result ≡ reach (R.has run) s.now at }
{
    for i in at..s.len() {
        if !run.has(s[i], crate::peek(s, i + 1)) {
            return i;
        }
        let next = i + 1;
        if next % BLOCK == 0 {
            // a slice of its own, so that `s` itself stays in registers
            return run.reach_on(&s[0..], next);
        }
    }
    s.len().max(at)
}
