// One token from a place of the text (lexer.rs, `next_token`), and what it lays into the buffers.
#![tactic(auto)]

pub mod class;
pub mod cursor;
pub mod lex;
pub mod next;
pub mod put;
pub mod reading;
