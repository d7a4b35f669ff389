// The kinds of tokens, in the order of token.rs.
ghost use Rattle.std.specs.Prelude.{◌≡◌};
ghost use Rattle.token.specs.Kind.{kind_number, is_eof, is_string};
ghost use Rattle.token.specs.Helpers.{is_newline, is_duration, on_one_line};

// The numbers by which the rows of token files are judged. Any number can stand there, so they are compared as numbers.
pub const EOF: usize = TokenKind::Eof as usize;

pub const ILLEGAL: usize = TokenKind::Illegal as usize;

// The last number.
pub const LAST: usize = TokenKind::AtProto as usize;

#[derive(Clone, Copy, PartialEq, Eq, Debug)]
pub enum TokenKind {
    Eof,
    Illegal,
    Newline,
    Comment,
    Ident,
    String,
    Int,
    Float,
    Bool,
    Null,
    Bytes,
    Timestamp,
    Duration,
    LBrace,
    RBrace,
    LBracket,
    RBracket,
    LParen,
    RParen,
    Equals,
    Colon,
    Comma,
    AtType,
    AtDirective,
    AtDataset,
    AtProto,
}

#[tactic(auto, unfolding(crate::specs::Kind::kind_number, crate::specs::Helpers::on_one_line))]
impl TokenKind {
    // The kind's number in records and token files.
    pub fn number(self) -> usize
        ensures { result ≡ kind_number self }
    {
        self as usize
    }

    pub fn is_eof(self) -> bool
        ensures { result ≡ is_eof self }
    {
        self == TokenKind::Eof
    }

    pub fn is_newline(self) -> bool
        ensures { result ≡ is_newline self }
    {
        self == TokenKind::Newline
    }

    pub fn is_string(self) -> bool
        ensures { result ≡ is_string self }
    {
        self == TokenKind::String
    }

    pub fn is_duration(self) -> bool
        ensures { result ≡ is_duration self }
    {
        self == TokenKind::Duration
    }

    // Whether its tokens have no newline, in any text.
    pub fn on_one_line(self) -> bool
        ensures { result ≡ on_one_line self }
    {
        !matches!(
            self,
            TokenKind::Illegal
                | TokenKind::Newline
                | TokenKind::Comment
                | TokenKind::String
                | TokenKind::Bytes
        )
    }
}
