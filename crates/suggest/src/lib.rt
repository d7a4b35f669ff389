// Suggestions for a mistyped duration: every replacement of one byte after which a strict reading sees one Duration and nothing else.
#![tactic(auto)]

pub mod call;
mod candidates;
mod pieces;
mod run;
pub mod seen;
