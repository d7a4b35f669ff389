// Numbers and bytes as the programs read and print them.
#![tactic(auto)]

pub mod numbers;
pub mod parse;
pub mod stdio;
