// UTF-8 by RFC 3629: the check of a text, the check one byte at a time, and characters.
#![tactic(auto)]

mod ascii;
pub mod character;
pub mod check;
mod short;
pub mod state;
