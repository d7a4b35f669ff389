// The next token from a place of the text.
ghost use Rattle.std.specs.Prelude.{◌≡◌, length};
ghost use Rattle.utf8.specs.Grammar.{valid_to};
ghost use Rattle.token.specs.Place.{place_at};
ghost use Rattle.token.specs.Helpers.{Walkable};
ghost use Rattle.lexer.specs.Token.{start_at, found_from, token_of, next_token};

use crate::class::mark;
use crate::lex::lex_in;
use crate::next::{Token, end_place, mark_lexeme, placed, skip_spaces};
use crate::reading::Settings;
use base::peek;
use token::place::Place;

// A place of a well-formed text.
#[derive(Clone, Copy)]
pub struct Cursor<'a> {
    pub text: &'a [u8],
    pub place: Place,
    pub ghost walkable: { Walkable text.now place place.offset },
    pub ghost well_formed: { valid_to text.now ≡ length text.now },
}

impl Cursor<'_> {
    // The place past the blanks, which have no newline.
    #[tactic(auto, using(crate::proofs::FoundToken::over_blanks, crate::proofs::FoundToken::blanks_along))]
    fn past_blanks(self) -> Place
        ensures { result ≡ place_at self.entry.text.now (start_at self.entry.text.now self.entry.place.offset) }
    {
        let place = self.place;
        let at = place.offset;
        let offset = skip_spaces(self.text, at);
        let gap = offset - at;
        let column = place.column + gap;
        Place {
            offset,
            column,
            ..place
        }
    }

    // The token that starts here.
    fn token_here(self, how: Settings) -> Token
        ensures { result ≡ token_of self.entry.text.now (found_from how.mode how.limit self.entry.text.now self.entry.place.offset) }
    {
        let text = self.text;
        let start = self.place;
        let x = lex_in(&text[start.offset..], how);
        let kind = x.kind;
        let end = end_place(text, start, kind, x.len);
        placed(start, end, x)
    }

    // The token after the blanks, with its places.
    pub fn next_token(self, how: Settings) -> Token
        ensures { result ≡ next_token how.mode how.limit self.entry.text.now self.entry.place.offset }
    {
        let text = self.text;
        let place = self.past_blanks();
        let start = Cursor { text, place };
        start.token_here(how)
    }

    // The same, for the loop that reads all tokens: most are marks, which need no lexer and no search for newlines. Called from that loop alone, it
    // becomes a part of it, and the token stays in registers.
    pub fn each_token(self, how: Settings) -> Token
        ensures { result ≡ next_token how.mode how.limit self.entry.text.now self.entry.place.offset }
    {
        let text = self.text;
        let place = self.past_blanks();
        let b = peek(text, place.offset);
        if let Some(kind) = mark(b) {
            return placed(place, place.step(b), mark_lexeme(kind));
        }
        let start = Cursor { text, place };
        start.token_here(how)
    }
}
