// A character that begins no token.
ghost use Rattle.std.specs.Prelude.{◌≡◌};
ghost use Rattle.scan.specs.Other.{lex_other};

use lexeme::Lexeme;
use token::reason::Reason;
use utf8::character::decode;
use utf8::check::char_end;

// An unexpected character, whole.
pub fn lex_other(s: &[u8]) -> Lexeme
    ensures { result ≡ lex_other s.now }
{
    // 0 where there is no character, which a well-formed text does not have: the detail is a number of the record.
    let code = decode(s).map_or(0, |found| found.code);
    // no `From` leads from u32 to usize
    Lexeme::illegal(Reason::UnexpectedCharacter, code as usize, char_end(s, 1))
}
