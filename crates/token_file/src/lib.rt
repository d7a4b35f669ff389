// Token files: a writer and a reader that are each other's inverse.
#![tactic(auto)]

pub mod layout;
pub mod number;
pub mod read;
mod records;
mod row;
pub mod write;
