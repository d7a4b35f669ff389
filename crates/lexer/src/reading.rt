// How a text is read: the mode of a reading, above the mode of the lexers, and the bytes limit.
ghost use Rattle.std.specs.Prelude.{◌≡◌};
ghost use Rattle.lexer.specs.Reading.{mode_of};

use lexeme::Mode;

// A reading is strict or tolerant. A type of its own beside the lexers' `Mode`: the modes of a call are part of the interface, and can be more than the two
// ways in which a lexer reads.
#[derive(Clone, Copy, PartialEq, Eq, Debug)]
pub enum Reading {
    Strict,
    Tolerant,
}

// What a reading is told beside the text: its mode, and the limit that a bytes literal must not exceed.
#[derive(Clone, Copy, PartialEq, Eq, Debug)]
pub struct Settings {
    pub mode: Reading,
    pub limit: usize,
}

// The mode of the lexers in a reading.
impl From<Reading> for Mode {
    ghost from_gives = { λ r m. m ≡ mode_of r };

    fn from(reading: Reading) -> Mode {
        match reading {
            Reading::Strict => Mode::Strict,
            Reading::Tolerant => Mode::Tolerant,
        }
    }
}
