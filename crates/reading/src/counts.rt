// How much a reading lays.
ghost use Rattle.std.specs.Prelude.{◌≡◌, ◌+◌, ◌≤◌};
ghost use Rattle.limits.specs.Limits.{max_message_size};
ghost use Rattle.lexer.specs.Token.{string_size};

use lexer::next::string_size;
use token::kind::TokenKind;

// How many tokens, string bytes and reports.
#[derive(Clone, Copy, PartialEq, Eq, Debug, Default)]
pub struct Counts {
    pub tokens: usize,
    pub strings: usize,
    pub reports: usize,
}

impl Counts {
    // Counts the string and the reports of a token too, whose value has so many bytes.
    #[inline(always)]
    pub(crate) fn count(&mut self, kind: TokenKind, size: usize, reports: usize)
        requires { (self.old.strings + string_size kind size ≤ max_message_size) × (self.old.reports + reports ≤ max_message_size) }
        ensures { self.new ≡ record self.old { strings = self.old.strings + string_size kind size; reports = self.old.reports + reports } }
    {
        self.strings += string_size(kind, size);
        self.reports += reports;
    }
}
