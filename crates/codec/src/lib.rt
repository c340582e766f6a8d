// The state as bytes, and back (document 01, Machine).
#![tactic(auto)]

pub mod decode;
pub mod encode;

// The bytes of a state: 41 words.
pub const LENGTH: usize = 164;
