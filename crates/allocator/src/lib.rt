// The keeper of document 02's Ticket 6: areas given and taken back.
#![tactic(auto)]

pub mod keeper;
pub mod pass;
