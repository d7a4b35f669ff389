// The C interface of the token reader: each function calls one public call, returns the documents' number of its answer, and sets all six numbers
// of `answer`; but for `pxf_interface`, which gives the interface's own number, and `pxf_byte_kind`, which gives an entry of a table.
// Numbers of C are cast to `usize`, which has 64 bits as they have: `try_from` could fail. Functions of like bodies differ in their names and contracts.
#![tactic(auto)]

pub mod interface;
pub mod kinds;
pub mod suggestions;
pub mod texts;
pub mod timestamps;
pub mod token_files;
mod values;
