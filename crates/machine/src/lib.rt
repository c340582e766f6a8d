// The machine: its state, one step, a run, and a resume.
#![tactic(auto)]

pub mod resume;
pub mod run;
pub mod state;
pub mod step;
