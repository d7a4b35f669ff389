// String literals: one step of a literal, measuring it, writing what it stands for, and its reports.
#![tactic(auto)]

mod digit;
pub mod lex;
mod literal;
pub mod notes;
mod piece;
