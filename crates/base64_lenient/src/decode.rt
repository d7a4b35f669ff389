// The bytes that a run decodes to, written to a lent buffer.
ghost use Rattle.std.specs.Prelude.{◌≡◌, [], ◌∷◌, ℕ, ◌+◌, ◌*◌, ◌/◌, ◌≤◌, ◌<◌, length, take, get_or};
ghost use Rattle.std.proofs.lemmas.List.Edits.{sets};
ghost use Rattle.base64_lenient.specs.Lenient.{six_bits, regroup};
ghost use Rattle.base64_lenient.specs.Calls.{refusal_number, DecodesBytes};
ghost use Rattle.base64_lenient.specs.Helpers.{bytes_from, NextGroup, WholeGroups};

use crate::alphabet::{NO_VALUE, VALUES};
use crate::judge::judge;
use base::answer::Numbered;

// Why the call is refused.
#[derive(Clone, Copy, PartialEq, Eq, Debug)]
pub enum Refusal {
    // The run is not UTF-8 or does not decode.
    BadRun = 13,
    // The buffer is shorter than the decoded bytes.
    BufferShort = 14,
}

impl Numbered for Refusal {
    ghost number_of = { refusal_number };

    // Document 02's number.
    fn number(self) -> u8 {
        self as u8
    }
}

// The values of the next characters, at most four, and where they end. An array and a count: there is no heap for a `Vec`.
#[derive(Clone, Copy, PartialEq, Eq, Debug)]
struct Group {
    values: [u8; 4],
    count: usize,
    end: usize,
}

// The value of a character, or 64. For an `Option` in `next_group` a second function would have to read the table.
fn value_of(b: u8) -> u8
    ensures { result ≡ six_bits b }
{
    VALUES[usize::from(b)]
}

// The next characters from `at` on: line breaks are skipped, a pad character or the end ends them.
fn next_group(run: &[u8], at: usize) -> Group
    requires { at ≤ length run.now }
    ensures { NextGroup run.now at result }
{
    let mut values = [0u8; 4];
    let mut count = 0;
    for i in at..run.len() {
        let b = run[i];
        if (count == 4) | (b == b'=') {
            return Group {
                values,
                count,
                end: i,
            };
        }
        let v = value_of(b);
        if v < NO_VALUE {
            values[count] = v;
            count += 1;
        }
    }
    Group {
        values,
        count,
        end: run.len(),
    }
}

// Stores the three bytes of four values. Numbers below 64: a type for six bits would have to be opened again wherever a bit of them is taken.
fn put_three(out: &mut [u8], at: usize, a: u8, b: u8, c: u8, d: u8)
    requires { (at + 3 ≤ length out.old) × (a < 64) × (b < 64) × (c < 64) × (d < 64) }
    ensures { out.new ≡ sets out.old at (regroup (a ∷ b ∷ c ∷ d ∷ [])) }
{
    out[at] = a * 4 + b / 16;
    out[at + 1] = b % 16 * 16 + c / 4;
    out[at + 2] = c % 4 * 64 + d;
}

// Stores the bytes of at most four values.
#[tactic(auto, unfolding(crate::specs::Lenient::regroup))]
fn put_group(out: &mut [u8], at: usize, values: &[u8])
    requires { (length values.now ≤ 4) × (at + length (regroup values.now) ≤ length out.old) × ((k : ℕ) → get_or values.now k 0 < 64) }
    ensures { out.new ≡ sets out.old at (regroup values.now) }
{
    match values {
        [a, b] => out[at] = a * 4 + b / 16,
        [a, b, c] => {
            out[at] = a * 4 + b / 16;
            out[at + 1] = b % 16 * 16 + c / 4;
        }
        [a, b, c, d] => put_three(out, at, *a, *b, *c, *d),
        _ => {}
    }
}

// Stores the bytes of the groups of four characters that stand together from `at` on. Gives how many groups there were.
fn whole_groups(run: &[u8], at: usize, out: &mut [u8], to: usize) -> usize
    requires { (at ≤ length run.now) × (to + length (bytes_from run.now at) ≤ length out.old) }
    ensures { WholeGroups run.now at out.old to result out.new }
{
    let (groups, _) = run[at..].as_chunks::<4>();
    for (n, [a, b, c, d]) in groups.iter().enumerate() {
        let a = value_of(*a);
        let b = value_of(*b);
        let c = value_of(*c);
        let d = value_of(*d);
        if !((a < NO_VALUE) & (b < NO_VALUE) & (c < NO_VALUE) & (d < NO_VALUE)) {
            return n;
        }
        put_three(out, to + n * 3, a, b, c, d);
    }
    groups.len()
}

// Stores the bytes of a run.
fn put_bytes(run: &[u8], out: &mut [u8])
    requires { length (bytes_from run.now 0) ≤ length out.old }
    ensures { out.new ≡ sets out.old 0 (bytes_from run.now 0) }
{
    let mut i = 0;
    let mut o = 0;
    // A `while`: the step is the length of the groups that were found.
    while i < run.len() {
        let n = whole_groups(run, i, out, o);
        i += n * 4;
        o += n * 3;
        let Group { values, count, end } = next_group(run, i);
        put_group(out, o, &values[..count]);
        if count < 4 {
            return;
        }
        i = end;
        o += 3;
    }
}

// Decodes a run into a buffer. It is judged first, so that a run that fails at its last byte has written nothing.
#[tactic(auto, using(crate::proofs::Answers::outcomes))]
pub fn decode_bytes(run: &[u8], out: &mut [u8]) -> Result<usize, Refusal>
    ensures { DecodesBytes run.now out.old result out.new }
{
    let Some(n) = judge(run) else {
        return Err(Refusal::BadRun);
    };
    if out.len() < n {
        return Err(Refusal::BufferShort);
    }
    put_bytes(run, out);
    Ok(n)
}
