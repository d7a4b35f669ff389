// Triple-quoted strings: where they end, and their dedent.
#![tactic(auto)]

mod dedent;
pub mod lex;
mod lines;
pub mod quotes;
