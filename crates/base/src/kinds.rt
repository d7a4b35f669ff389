// The kinds of bytes: one table, which decides what a digit, a letter, a byte of a name and the first byte of a unit is. The tests of one byte
// (class.rt) and of blocks of bytes read it.
ghost use Rattle.std.specs.Prelude.{◌≡◌, true, ◌+◌, ◌≤◌};
ghost use Rattle.base.specs.Runs.{reach};
ghost use Rattle.base.specs.Kinds.{kinds, kind_of};
ghost use Rattle.base.specs.Masks.{mask_of, word_of, has_bit, is_kind, in_kind, kind_test};

use crate::runs::{Run, reach_long};

// A digit.
pub const DIGIT: u8 = 1;

// An ASCII letter.
pub const LETTER: u8 = 2;

// A byte that can go on a name.
pub const NAME: u8 = 4;

// The first byte of a unit.
pub const UNIT: u8 = 8;

// An entry for each byte, the sum of its kinds: 1 for a digit, 2 for an ASCII letter, 4 for a byte that can go on a name, 8 for the first byte of
// a unit. docs/BYTE-KINDS.md is made from it.
pub const BYTE_KINDS: [u8; 256] = [
    0, // 0x00
    0, // 0x01
    0, // 0x02
    0, // 0x03
    0, // 0x04
    0, // 0x05
    0, // 0x06
    0, // 0x07
    0, // 0x08
    0, // 0x09
    0, // 0x0A
    0, // 0x0B
    0, // 0x0C
    0, // 0x0D
    0, // 0x0E
    0, // 0x0F
    0, // 0x10
    0, // 0x11
    0, // 0x12
    0, // 0x13
    0, // 0x14
    0, // 0x15
    0, // 0x16
    0, // 0x17
    0, // 0x18
    0, // 0x19
    0, // 0x1A
    0, // 0x1B
    0, // 0x1C
    0, // 0x1D
    0, // 0x1E
    0, // 0x1F
    0, // 0x20 space
    0, // 0x21 !
    0, // 0x22 "
    0, // 0x23 #
    0, // 0x24 $
    0, // 0x25 %
    0, // 0x26 &
    0, // 0x27 '
    0, // 0x28 (
    0, // 0x29 )
    0, // 0x2A *
    0, // 0x2B +
    0, // 0x2C ,
    0, // 0x2D -
    4, // 0x2E .
    0, // 0x2F /
    5, // 0x30 0
    5, // 0x31 1
    5, // 0x32 2
    5, // 0x33 3
    5, // 0x34 4
    5, // 0x35 5
    5, // 0x36 6
    5, // 0x37 7
    5, // 0x38 8
    5, // 0x39 9
    0, // 0x3A :
    0, // 0x3B ;
    0, // 0x3C <
    0, // 0x3D =
    0, // 0x3E >
    0, // 0x3F ?
    0, // 0x40 @
    6, // 0x41 A
    6, // 0x42 B
    6, // 0x43 C
    6, // 0x44 D
    6, // 0x45 E
    6, // 0x46 F
    6, // 0x47 G
    6, // 0x48 H
    6, // 0x49 I
    6, // 0x4A J
    6, // 0x4B K
    6, // 0x4C L
    6, // 0x4D M
    6, // 0x4E N
    6, // 0x4F O
    6, // 0x50 P
    6, // 0x51 Q
    6, // 0x52 R
    6, // 0x53 S
    6, // 0x54 T
    6, // 0x55 U
    6, // 0x56 V
    6, // 0x57 W
    6, // 0x58 X
    6, // 0x59 Y
    6, // 0x5A Z
    0, // 0x5B [
    0, // 0x5C \
    0, // 0x5D ]
    0, // 0x5E ^
    4, // 0x5F _
    0, // 0x60 `
    6, // 0x61 a
    6, // 0x62 b
    6, // 0x63 c
    6, // 0x64 d
    6, // 0x65 e
    6, // 0x66 f
    6, // 0x67 g
    14, // 0x68 h
    6, // 0x69 i
    6, // 0x6A j
    6, // 0x6B k
    6, // 0x6C l
    14, // 0x6D m
    14, // 0x6E n
    6, // 0x6F o
    6, // 0x70 p
    6, // 0x71 q
    6, // 0x72 r
    14, // 0x73 s
    6, // 0x74 t
    14, // 0x75 u
    6, // 0x76 v
    6, // 0x77 w
    6, // 0x78 x
    6, // 0x79 y
    6, // 0x7A z
    0, // 0x7B {
    0, // 0x7C |
    0, // 0x7D }
    0, // 0x7E ~
    0, // 0x7F
    0, // 0x80
    0, // 0x81
    0, // 0x82
    0, // 0x83
    0, // 0x84
    0, // 0x85
    0, // 0x86
    0, // 0x87
    0, // 0x88
    0, // 0x89
    0, // 0x8A
    0, // 0x8B
    0, // 0x8C
    0, // 0x8D
    0, // 0x8E
    0, // 0x8F
    0, // 0x90
    0, // 0x91
    0, // 0x92
    0, // 0x93
    0, // 0x94
    0, // 0x95
    0, // 0x96
    0, // 0x97
    0, // 0x98
    0, // 0x99
    0, // 0x9A
    0, // 0x9B
    0, // 0x9C
    0, // 0x9D
    0, // 0x9E
    0, // 0x9F
    0, // 0xA0
    0, // 0xA1
    0, // 0xA2
    0, // 0xA3
    0, // 0xA4
    0, // 0xA5
    0, // 0xA6
    0, // 0xA7
    0, // 0xA8
    0, // 0xA9
    0, // 0xAA
    0, // 0xAB
    0, // 0xAC
    0, // 0xAD
    0, // 0xAE
    0, // 0xAF
    0, // 0xB0
    0, // 0xB1
    0, // 0xB2
    0, // 0xB3
    0, // 0xB4
    0, // 0xB5
    0, // 0xB6
    0, // 0xB7
    0, // 0xB8
    0, // 0xB9
    0, // 0xBA
    0, // 0xBB
    0, // 0xBC
    0, // 0xBD
    0, // 0xBE
    0, // 0xBF
    0, // 0xC0
    0, // 0xC1
    8, // 0xC2
    0, // 0xC3
    0, // 0xC4
    0, // 0xC5
    0, // 0xC6
    0, // 0xC7
    0, // 0xC8
    0, // 0xC9
    0, // 0xCA
    0, // 0xCB
    0, // 0xCC
    0, // 0xCD
    0, // 0xCE
    0, // 0xCF
    0, // 0xD0
    0, // 0xD1
    0, // 0xD2
    0, // 0xD3
    0, // 0xD4
    0, // 0xD5
    0, // 0xD6
    0, // 0xD7
    0, // 0xD8
    0, // 0xD9
    0, // 0xDA
    0, // 0xDB
    0, // 0xDC
    0, // 0xDD
    0, // 0xDE
    0, // 0xDF
    0, // 0xE0
    0, // 0xE1
    0, // 0xE2
    0, // 0xE3
    0, // 0xE4
    0, // 0xE5
    0, // 0xE6
    0, // 0xE7
    0, // 0xE8
    0, // 0xE9
    0, // 0xEA
    0, // 0xEB
    0, // 0xEC
    0, // 0xED
    0, // 0xEE
    0, // 0xEF
    0, // 0xF0
    0, // 0xF1
    0, // 0xF2
    0, // 0xF3
    0, // 0xF4
    0, // 0xF5
    0, // 0xF6
    0, // 0xF7
    0, // 0xF8
    0, // 0xF9
    0, // 0xFA
    0, // 0xFB
    0, // 0xFC
    0, // 0xFD
    0, // 0xFE
    0, // 0xFF
];

// The entry of a byte.
pub fn byte_kind(b: u8) -> u8
    ensures { result ≡ kind_of b }
{
    let t = BYTE_KINDS;
    t[usize::from(b)]
}

// A bit for each of the sixteen entries from `at` on: whether it counts the kind n.
fn row(t: &[u8; 256], n: u8, at: usize) -> u64
    requires { (t.now ≡ kinds) × (at + 16 ≤ 256) }
    ensures { result ≡ mask_of n at 16 }
{
    let mut w: u64 = 0;
    for i in 0..16 {
        w |= u64::from(t[at + i] & n != 0) << i;
    }
    w
}

// The word of a kind among the 64 bytes from which b is, a bit for each. The compiler keeps no constant array in memory: one that is read at an index
// which it does not know is laid on the stack at each call. Here it knows every index, and finds the words itself. It does so for loops of sixteen
// turns whose kind and start are literals, and for no longer ones.
fn word<const KIND: u8>(b: u8) -> u64
    requires { is_kind KIND ≡ true }
    ensures { result ≡ word_of KIND b }
{
    let t = BYTE_KINDS;
    match b >> 6 {
        0 => row(&t, KIND, 0)
            | (row(&t, KIND, 16) << 16)
            | (row(&t, KIND, 32) << 32)
            | (row(&t, KIND, 48) << 48),
        1 => row(&t, KIND, 64)
            | (row(&t, KIND, 80) << 16)
            | (row(&t, KIND, 96) << 32)
            | (row(&t, KIND, 112) << 48),
        2 => row(&t, KIND, 128)
            | (row(&t, KIND, 144) << 16)
            | (row(&t, KIND, 160) << 32)
            | (row(&t, KIND, 176) << 48),
        _ => row(&t, KIND, 192)
            | (row(&t, KIND, 208) << 16)
            | (row(&t, KIND, 224) << 32)
            | (row(&t, KIND, 240) << 48),
    }
}

// Whether the bit of a byte is set in the word of its 64 bytes.
fn has_bit(w: u64, b: u8) -> bool
    ensures { result ≡ has_bit w b }
{
    (w >> (b & 63)) & 1 != 0
}

// Whether a byte is of a kind.
#[tactic(auto, using(crate::proofs::ByteKinds::word_tells))]
pub fn of_kind<const KIND: u8>(b: u8) -> bool
    requires { is_kind KIND ≡ true }
    ensures { result ≡ kind_test KIND b }
{
    has_bit(word::<KIND>(b), b)
}

// The bytes of a kind, by the table laid once and lent.
#[derive(Clone, Copy)]
struct Laid<'a, const KIND: u8> {
    table: &'a [u8; 256],
    ghost is_table: { table.now ≡ kinds },
    ghost is_kind: { is_kind KIND ≡ true },
}

impl<'a, const KIND: u8> Run for Laid<'a, KIND> {
    ghost has = { λ _. in_kind KIND };

    fn has(self, a: u8, _b: u8) -> bool {
        KIND & self.table[usize::from(a)] != 0
    }
}

// The end of the run of bytes of a kind that starts at `at`, for runs that are often long.
pub fn reach_kind<const KIND: u8>(s: &[u8], at: usize) -> usize
    requires { is_kind KIND ≡ true }
    ensures { result ≡ reach (in_kind KIND) s.now at }
{
    let table = BYTE_KINDS;
    reach_long(Laid::<KIND> { table: &table }, s, at)
}
