// What a step can do, and the exits.
#![tactic(auto)]

pub mod effect;
pub mod exit;
