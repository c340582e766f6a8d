// 32-bit words: their fields, sign extension, and their bytes in a slice.
#![tactic(auto)]

pub mod bytes;
pub mod field;
pub mod number;
