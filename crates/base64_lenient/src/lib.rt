// Base 64 as RFC 4648 has it, read as leniently as `decode_base64_lenient` of go_strconv.rs reads it.
#![tactic(auto)]

pub mod alphabet;
pub mod decode;
pub mod judge;
