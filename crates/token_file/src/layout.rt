// The layouts of token files, one for each version.
ghost use Rattle.std.specs.Prelude.{◌≡◌, ◌+◌, ◌≤◌, ◌<◌, ◌^◌};

// Mark, version and count.
pub const HEADER_WIDTH: usize = 9;

// How many bytes each kept number of a token has, in the file's order.
#[derive(Clone, Copy, PartialEq, Eq, Debug)]
pub struct Layout {
    pub version: usize,
    pub kind: usize,
    pub reason: usize,
    pub start: usize,
    pub end: usize,
    pub line: usize,
    pub column: usize,
    // At most seven bytes each, so that a signed 64-bit number holds what they write.
    pub ghost narrow: { (kind ≤ 7) × (reason ≤ 7) × (start ≤ 7) × (end ≤ 7) × (line ≤ 7) × (column ≤ 7) },
}

// Where the numbers of a row begin in a file. A type of its own beside `Layout` and `Row`, so that no offset is taken for a width or for a number of a row.
#[derive(Clone, Copy, PartialEq, Eq, Debug)]
pub(crate) struct Offsets {
    pub kind: usize,
    pub reason: usize,
    pub start: usize,
    pub end: usize,
    pub line: usize,
    pub column: usize,
}

impl Layout {
    ghost use Rattle.token_file.specs.Format.{version1, row_width, file_width};
    ghost use Rattle.token_file.specs.Fits.{offsets};

    #[tactic(auto, unfolding(crate::specs::Format::version1))]
    pub fn version1() -> Self
        ensures { result ≡ version1 }
    {
        Self {
            version: 1,
            kind: 1,
            reason: 1,
            start: 4,
            end: 4,
            line: 4,
            column: 2,
        }
    }

    // How many bytes a token has.
    #[tactic(auto, unfolding(crate::specs::Format::row_width))]
    pub fn row_width(self) -> usize
        ensures { result ≡ row_width self }
    {
        self.kind + self.reason + self.start + self.end + self.line + self.column
    }

    // How many bytes the file of so many tokens has: the next token begins there.
    #[tactic(auto, unfolding(crate::specs::Format::file_width))]
    pub fn file_width(self, count: usize) -> usize
        requires { file_width self count < 2 ^ 64 }
        ensures { result ≡ file_width self count }
    {
        HEADER_WIDTH + self.row_width() * count
    }

    // Where the numbers of the row at `at` begin.
    #[tactic(auto, unfolding(crate::specs::Format::row_width))]
    pub(crate) fn offsets(self, at: usize) -> Offsets
        requires { at + row_width self < 2 ^ 64 }
        ensures { result ≡ offsets self at }
    {
        let reason = at + self.kind;
        let start = reason + self.reason;
        let end = start + self.start;
        let line = end + self.end;
        let column = line + self.line;
        Offsets {
            kind: at,
            reason,
            start,
            end,
            line,
            column,
        }
    }
}
