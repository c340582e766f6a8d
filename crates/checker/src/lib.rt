// The module checker: document 01's rules 1 to 16 in its order, and 22 and 25 of document 02 after 12.
#![tactic(auto)]

pub mod check;
pub mod verdict;
pub mod words;
