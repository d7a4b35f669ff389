// Names and directives.
ghost use Rattle.std.specs.Prelude.{◌≡◌, ◌+◌, length};
ghost use Rattle.scan.specs.Name.{name_kind, lex_ident, directive, lex_directive};

use crate::run::Name;
use base::runs::reach_run;
use lexeme::Lexeme;
use token::kind::TokenKind;
use token::reason::Reason;

// What a name is.
#[tactic(auto, using(std::proofs::lemmas::Bool::Decides::nat_tests, crate::proofs::Spelled::same_by), unfolding(crate::specs::Name::name_kind))]
fn name_kind(name: &[u8]) -> TokenKind
    ensures { result ≡ name_kind name.now }
{
    match name {
        b"true" | b"false" => TokenKind::Bool,
        b"null" => TokenKind::Null,
        _ => TokenKind::Ident,
    }
}

// A name, or one of the words `true`, `false` and `null`.
#[tactic(auto, using(crate::proofs::Parts::runs), unfolding(crate::specs::Name::lex_ident))]
pub fn lex_ident(s: &[u8]) -> Lexeme
    ensures { result ≡ lex_ident s.now }
{
    let n = reach_run(Name, s, 0);
    Lexeme::whole(name_kind(&s[..n]), n)
}

// The directive of a name, which stands after its `@`.
#[tactic(auto, using(std::proofs::lemmas::Bool::Decides::nat_tests, crate::proofs::Spelled::same_by), unfolding(crate::specs::Name::directive))]
fn directive(name: &[u8]) -> Lexeme
    ensures { result ≡ directive name.now (length name.now + 1) }
{
    let len = name.len() + 1;
    // Before the `match`: in its last arm the proof has nineteen ways to it, which stay open.
    let other = Lexeme::extent(TokenKind::AtDirective, len, 1, name.len(), 0);
    match name {
        b"type" => Lexeme::whole(TokenKind::AtType, len),
        b"dataset" => Lexeme::whole(TokenKind::AtDataset, len),
        b"proto" => Lexeme::whole(TokenKind::AtProto, len),
        _ => other,
    }
}

// What begins with `@`.
#[tactic(auto, using(crate::proofs::Parts::runs), unfolding(crate::specs::Name::lex_directive))]
pub fn lex_directive(s: &[u8]) -> Lexeme
    ensures { result ≡ lex_directive s.now }
{
    let n = reach_run(Name, s, 1);
    if n == 1 {
        return Lexeme::illegal(Reason::AtWithoutName, 0, 1);
    }
    directive(&s[1..n])
}
