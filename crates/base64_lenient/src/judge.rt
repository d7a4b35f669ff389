// Whether a run decodes, and to how many bytes: one pass over the run.
ghost use Rattle.std.specs.Prelude.{◌≡◌, ◌≤◌, ◌<◌, length};
ghost use Rattle.base64_lenient.specs.Lenient.{right_pads};
ghost use Rattle.base64_lenient.specs.Helpers.{judge_of, characters_seen, nothing_seen, seen_one, seen_all, judged_seen, CanSee, SeenTo};

use crate::alphabet::{Alphabets, in_both};
use base::runs::BLOCK;

// How many bytes are tested at once.
const ROW: usize = 2 * BLOCK;

// What was seen of a run: which alphabets have all of its characters, how many there are, and how many pad characters.
#[derive(Clone, Copy, PartialEq, Eq, Debug)]
struct Seen {
    alphabets: Alphabets,
    characters: usize,
    pads: usize,
}

// What was seen to the end of a part of the run.
#[derive(Clone, Copy, PartialEq, Eq, Debug)]
struct Passed {
    seen: Seen,
    end: usize,
}

// So many characters of these alphabets were seen, to `end`, and no pad character.
fn unpadded(alphabets: Alphabets, characters: usize, end: usize) -> Passed
    ensures { (result.seen ≡ characters_seen alphabets characters) × (result.end ≡ end) }
{
    let seen = Seen {
        alphabets,
        characters,
        pads: 0,
    };
    Passed { seen, end }
}

impl Seen {
    // Before the first byte.
    fn none() -> Seen
        ensures { result ≡ nothing_seen }
    {
        Seen {
            alphabets: Alphabets::both(),
            characters: 0,
            pads: 0,
        }
    }

    // After one byte more. A character after a pad character is of no alphabet.
    #[tactic(auto, using(crate::proofs::Sights::steps))]
    fn one(self, b: u8) -> Seen
        requires { CanSee self 1 }
        ensures { result ≡ seen_one self b }
    {
        // Most bytes are such, so that they are asked first.
        if (self.pads == 0) & in_both(b) {
            return Seen {
                characters: self.characters + 1,
                ..self
            };
        }
        if (b == b'\r') | (b == b'\n') {
            return self;
        }
        if b == b'=' {
            return Seen {
                pads: self.pads + 1,
                ..self
            };
        }
        // Two returns: with one `if` for the alphabets alone, runs with line breaks take 1.5 times as long.
        if self.pads == 0 {
            return Seen {
                alphabets: self.alphabets.shared(Alphabets::with(b)),
                characters: self.characters + 1,
                ..self
            };
        }
        Seen {
            alphabets: Alphabets::none(),
            characters: self.characters + 1,
            ..self
        }
    }

    // After more bytes, one by one. A `for` and no `fold`: a closure would have to ask for the room that `one` asks for.
    #[tactic(auto, using(crate::proofs::Sights::going_end))]
    fn all(self, s: &[u8]) -> Seen
        requires { CanSee self (length s.now) }
        ensures { result ≡ seen_all self s.now }
    {
        let mut seen = self;
        for b in s {
            seen = seen.one(*b);
        }
        seen
    }

    // Goes on from `at` over rows that have only characters of an alphabet that all before them have.
    fn rows(self, run: &[u8], at: usize) -> Passed
        requires { SeenTo run.now self at }
        ensures { SeenTo run.now result.seen result.end × (at ≤ result.end) }
    {
        if self.pads != 0 {
            return Passed {
                seen: self,
                end: at,
            };
        }
        let mut left = self.alphabets;
        let (rows, _) = run[at..].as_chunks::<ROW>();
        for (n, row) in rows.iter().enumerate() {
            let next = left.shared(Alphabets::with_all(row));
            if !next.some() {
                return unpadded(left, self.characters + n * ROW, at + n * ROW);
            }
            left = next;
        }
        let passed = rows.len() * ROW;
        unpadded(left, self.characters + passed, at + passed)
    }

    // Whether pad characters, as many as there are, are right after the characters.
    fn right_pads(self) -> bool
        ensures { result ≡ right_pads self.characters self.pads }
    {
        let left = self.characters % 4;
        let pads = self.pads;
        ((pads == 0) & (left != 1)) | (((pads == 1) & (left == 3)) | ((pads == 2) & (left == 2)))
    }

    // To how many bytes a run decodes of which this is all, if it does.
    #[tactic(auto, unfolding(crate::specs::Helpers::judged_seen))]
    fn judged(self) -> Option<usize>
        ensures { result ≡ judged_seen self }
    {
        let n = self.characters;
        (self.alphabets.some() & self.right_pads()).then_some(n / 4 * 3 + n % 4 * 3 / 4)
    }
}

// To how many bytes a run decodes, if it does: rows of characters at once, and one by one what stands near line breaks and pad characters. It ends early
// where no alphabet is left.
#[tactic(auto, using(crate::proofs::Verdicts::judged_whole))]
pub fn judge(run: &[u8]) -> Option<usize>
    ensures { result ≡ judge_of run.now }
{
    let mut seen = Seen::none();
    let mut i = 0;
    // A `while`: the step is the length of the rows that were passed, and of the block after them.
    while i < run.len() {
        let Passed {
            seen: before,
            end: at,
        } = seen.rows(run, i);
        let end = at + BLOCK.min(run.len() - at);
        seen = before.all(&run[at..end]);
        if !seen.alphabets.some() {
            return None;
        }
        i = end;
    }
    seen.judged()
}
