// The two alphabets.
ghost use Rattle.std.specs.Prelude.{◌≡◌, true, false};
ghost use Rattle.base.specs.Blocks.{all_pass};
ghost use Rattle.base64_lenient.specs.Rfc4648.{standard, url_safe};
ghost use Rattle.base64_lenient.specs.Lenient.{is_in};
ghost use Rattle.base64_lenient.specs.Helpers.{in_both, alphabets_by, alphabets_of, shared, some_alphabet};

// An entry for each byte: its value as a character, in the alphabet that has it, or 64. A number and no `Option`, so that one load tells value and test.
pub const VALUES: [u8; 256] = [
    64, // 0x00
    64, // 0x01
    64, // 0x02
    64, // 0x03
    64, // 0x04
    64, // 0x05
    64, // 0x06
    64, // 0x07
    64, // 0x08
    64, // 0x09
    64, // 0x0A
    64, // 0x0B
    64, // 0x0C
    64, // 0x0D
    64, // 0x0E
    64, // 0x0F
    64, // 0x10
    64, // 0x11
    64, // 0x12
    64, // 0x13
    64, // 0x14
    64, // 0x15
    64, // 0x16
    64, // 0x17
    64, // 0x18
    64, // 0x19
    64, // 0x1A
    64, // 0x1B
    64, // 0x1C
    64, // 0x1D
    64, // 0x1E
    64, // 0x1F
    64, // 0x20
    64, // 0x21
    64, // 0x22
    64, // 0x23
    64, // 0x24
    64, // 0x25
    64, // 0x26
    64, // 0x27
    64, // 0x28
    64, // 0x29
    64, // 0x2A
    62, // +
    64, // 0x2C
    62, // -
    64, // 0x2E
    63, // /
    52, // 0
    53, // 1
    54, // 2
    55, // 3
    56, // 4
    57, // 5
    58, // 6
    59, // 7
    60, // 8
    61, // 9
    64, // 0x3A
    64, // 0x3B
    64, // 0x3C
    64, // 0x3D
    64, // 0x3E
    64, // 0x3F
    64, // 0x40
    0, // A
    1, // B
    2, // C
    3, // D
    4, // E
    5, // F
    6, // G
    7, // H
    8, // I
    9, // J
    10, // K
    11, // L
    12, // M
    13, // N
    14, // O
    15, // P
    16, // Q
    17, // R
    18, // S
    19, // T
    20, // U
    21, // V
    22, // W
    23, // X
    24, // Y
    25, // Z
    64, // 0x5B
    64, // 0x5C
    64, // 0x5D
    64, // 0x5E
    63, // _
    64, // 0x60
    26, // a
    27, // b
    28, // c
    29, // d
    30, // e
    31, // f
    32, // g
    33, // h
    34, // i
    35, // j
    36, // k
    37, // l
    38, // m
    39, // n
    40, // o
    41, // p
    42, // q
    43, // r
    44, // s
    45, // t
    46, // u
    47, // v
    48, // w
    49, // x
    50, // y
    51, // z
    64, // 0x7B
    64, // 0x7C
    64, // 0x7D
    64, // 0x7E
    64, // 0x7F
    64, // 0x80
    64, // 0x81
    64, // 0x82
    64, // 0x83
    64, // 0x84
    64, // 0x85
    64, // 0x86
    64, // 0x87
    64, // 0x88
    64, // 0x89
    64, // 0x8A
    64, // 0x8B
    64, // 0x8C
    64, // 0x8D
    64, // 0x8E
    64, // 0x8F
    64, // 0x90
    64, // 0x91
    64, // 0x92
    64, // 0x93
    64, // 0x94
    64, // 0x95
    64, // 0x96
    64, // 0x97
    64, // 0x98
    64, // 0x99
    64, // 0x9A
    64, // 0x9B
    64, // 0x9C
    64, // 0x9D
    64, // 0x9E
    64, // 0x9F
    64, // 0xA0
    64, // 0xA1
    64, // 0xA2
    64, // 0xA3
    64, // 0xA4
    64, // 0xA5
    64, // 0xA6
    64, // 0xA7
    64, // 0xA8
    64, // 0xA9
    64, // 0xAA
    64, // 0xAB
    64, // 0xAC
    64, // 0xAD
    64, // 0xAE
    64, // 0xAF
    64, // 0xB0
    64, // 0xB1
    64, // 0xB2
    64, // 0xB3
    64, // 0xB4
    64, // 0xB5
    64, // 0xB6
    64, // 0xB7
    64, // 0xB8
    64, // 0xB9
    64, // 0xBA
    64, // 0xBB
    64, // 0xBC
    64, // 0xBD
    64, // 0xBE
    64, // 0xBF
    64, // 0xC0
    64, // 0xC1
    64, // 0xC2
    64, // 0xC3
    64, // 0xC4
    64, // 0xC5
    64, // 0xC6
    64, // 0xC7
    64, // 0xC8
    64, // 0xC9
    64, // 0xCA
    64, // 0xCB
    64, // 0xCC
    64, // 0xCD
    64, // 0xCE
    64, // 0xCF
    64, // 0xD0
    64, // 0xD1
    64, // 0xD2
    64, // 0xD3
    64, // 0xD4
    64, // 0xD5
    64, // 0xD6
    64, // 0xD7
    64, // 0xD8
    64, // 0xD9
    64, // 0xDA
    64, // 0xDB
    64, // 0xDC
    64, // 0xDD
    64, // 0xDE
    64, // 0xDF
    64, // 0xE0
    64, // 0xE1
    64, // 0xE2
    64, // 0xE3
    64, // 0xE4
    64, // 0xE5
    64, // 0xE6
    64, // 0xE7
    64, // 0xE8
    64, // 0xE9
    64, // 0xEA
    64, // 0xEB
    64, // 0xEC
    64, // 0xED
    64, // 0xEE
    64, // 0xEF
    64, // 0xF0
    64, // 0xF1
    64, // 0xF2
    64, // 0xF3
    64, // 0xF4
    64, // 0xF5
    64, // 0xF6
    64, // 0xF7
    64, // 0xF8
    64, // 0xF9
    64, // 0xFA
    64, // 0xFB
    64, // 0xFC
    64, // 0xFD
    64, // 0xFE
    64, // 0xFF
];

// The least number that is no value.
pub const NO_VALUE: u8 = 64;

// Whether both alphabets have the byte.
#[tactic(auto, using(crate::proofs::AlphabetTests::both_test))]
pub fn in_both(b: u8) -> bool
    ensures { result ≡ in_both b }
{
    b.is_ascii_alphanumeric()
}

// Whether the standard alphabet has the byte. A function of the two own characters for this and the next would leave both, as its callers.
#[tactic(auto, using(crate::proofs::AlphabetTests::standard_test))]
pub fn in_standard(b: u8) -> bool
    ensures { result ≡ is_in standard b }
{
    in_both(b) | (b == b'+') | (b == b'/')
}

// Whether the alphabet that is safe in URLs has the byte.
#[tactic(auto, using(crate::proofs::AlphabetTests::url_test))]
pub fn in_url_safe(b: u8) -> bool
    ensures { result ≡ is_in url_safe b }
{
    in_both(b) | (b == b'-') | (b == b'_')
}

// Which of the two alphabets have what was looked at.
#[derive(Clone, Copy, PartialEq, Eq, Debug)]
pub struct Alphabets {
    pub standard: bool,
    pub url_safe: bool,
}

impl Alphabets {
    // Both of them. This and the next are named, since `default` would not say which it is.
    pub fn both() -> Alphabets
        ensures { result ≡ alphabets_by true true }
    {
        Alphabets {
            standard: true,
            url_safe: true,
        }
    }

    // Neither of them.
    pub fn none() -> Alphabets
        ensures { result ≡ alphabets_by false false }
    {
        Alphabets {
            standard: false,
            url_safe: false,
        }
    }

    // Those that have the byte.
    pub fn with(b: u8) -> Alphabets
        ensures { result ≡ alphabets_of b }
    {
        Alphabets {
            standard: in_standard(b),
            url_safe: in_url_safe(b),
        }
    }

    // Those that have all bytes. It looks at every byte, so that several can be tested by one instruction. A `for`: of a `fold` the goal stays open.
    pub fn with_all(s: &[u8]) -> Alphabets
        ensures { result ≡ alphabets_by (all_pass (is_in standard) s.now) (all_pass (is_in url_safe) s.now) }
    {
        let mut standard = true;
        let mut url_safe = true;
        for b in s {
            standard &= in_standard(*b);
            url_safe &= in_url_safe(*b);
        }
        Alphabets { standard, url_safe }
    }

    // Those of both.
    pub fn shared(self, other: Alphabets) -> Alphabets
        ensures { result ≡ shared self other }
    {
        Alphabets {
            standard: self.standard & other.standard,
            url_safe: self.url_safe & other.url_safe,
        }
    }

    // Whether there is one.
    pub fn some(self) -> bool
        ensures { result ≡ some_alphabet self }
    {
        self.standard | self.url_safe
    }
}
