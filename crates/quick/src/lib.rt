// What the checker asks of most words, told from their bits: quicker than to read them.
#![tactic(auto)]

pub mod code;
pub mod guard;
pub mod plain;
pub mod set;
