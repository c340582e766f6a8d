// The straight-through profile: document 01's rules and two more, by which a module is known to finish.
#![tactic(auto)]

pub mod check;
pub mod words;
