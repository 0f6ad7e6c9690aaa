//! The laws by which a client's answers are those of a job's next step.
#![tactic(auto)]

pub mod laws;
