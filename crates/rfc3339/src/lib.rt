// The instant that a timestamp names, as rfc3339.rs reads it.
#![tactic(auto)]

pub mod calendar;
pub mod parse;
pub mod rules;
