// The public calls on a text: the whole reading, one token from a place, and the place of an offset.
#![tactic(auto)]

pub mod counts;
pub mod judge;
pub mod one;
pub mod place;
mod put;
pub mod refusal;
pub mod text;
