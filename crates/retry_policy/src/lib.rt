//! What follows the attempts of a retry that have ended.
#![tactic(auto)]

mod attempts;

pub use attempts::{AttemptStep, Tried, next_attempt, step_after};
