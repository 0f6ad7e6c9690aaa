//! When a suspended node ends.
#![tactic(auto)]

mod suspension;

pub use suspension::{resumes, suspend_phase};
