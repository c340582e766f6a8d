// The instruction set: its instructions as data, and the formats of their words.
#![tactic(auto)]

pub mod control;
mod drawing;
pub mod format;
pub mod kind;
mod number;
pub mod register;
mod row;
pub mod width;
