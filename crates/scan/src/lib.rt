// The lexers of lexer.rs but for strings. Each gets the rest of the text from the token's first byte on.
#![tactic(auto)]

pub mod bytes;
pub mod comment;
pub mod name;
pub mod number;
pub mod other;
pub mod run;
