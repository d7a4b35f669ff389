// What every crate shares: bytes read from a slice, the table of byte kinds and the tests of bytes, and stores. The definitions and laws that all
// crates cite stand in specs/ and proofs/.
#![tactic(auto)]

ghost use Rattle.std.specs.Prelude.{◌≡◌, ◌+◌, ◌≤◌, length};
ghost use Rattle.std.proofs.lemmas.List.Edits.{sets};
ghost use Rattle.base.specs.Bytes.{byte};

pub mod answer;
pub mod class;
pub mod digits;
pub mod find;
pub mod kinds;
pub mod runs;

use crate::runs::BLOCK;

// The byte at `k`, or 0 past the end.
pub fn peek(s: &[u8], k: usize) -> u8
    ensures { result ≡ byte s.now k }
{
    s.get(k).copied().unwrap_or(0)
}

// Stores the elements of `xs` from index `at` on, one by one: `copy_from_slice` calls the C library. An index, since one buffer is stored to at several places.
pub fn store<T: Copy>(buf: &mut [T], at: usize, xs: &[T])
    requires { at + length xs.now ≤ length buf.old }
    ensures { buf.new ≡ sets buf.old at xs.now }
{
    for k in 0..xs.len() {
        buf[at + k] = xs[k];
    }
}

// Stores a block. It is all loaded before it is stored, so that it is one load and one store.
fn store_block(buf: &mut [u8], at: usize, xs: &[u8; BLOCK])
    requires { at + 16 ≤ length buf.old }
    ensures { buf.new ≡ sets buf.old at xs.now }
{
    let mut block = [0u8; BLOCK];
    store(&mut block, 0, xs);
    store(buf, at, &block);
}

// Stores the bytes of `xs` from index `at` on, by blocks. The last block ends with the last byte, and may store some bytes twice.
pub fn copy(buf: &mut [u8], at: usize, xs: &[u8])
    requires { at + length xs.now ≤ length buf.old }
    ensures { buf.new ≡ sets buf.old at xs.now }
{
    let Some(last) = xs.last_chunk::<BLOCK>() else {
        store(buf, at, xs);
        return;
    };
    let (blocks, _) = xs.as_chunks::<BLOCK>();
    for (n, block) in blocks.iter().enumerate() {
        store_block(buf, at + n * BLOCK, block);
    }
    store_block(buf, at + (xs.len() - BLOCK), last);
}
