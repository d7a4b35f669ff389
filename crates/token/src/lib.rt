// Token kinds, reasons, places in a text, and the numbers of records and reports (token.rs).
#![tactic(auto)]

pub mod kind;
pub mod layout;
pub mod place;
pub mod reason;
