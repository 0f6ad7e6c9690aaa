//! What follows the groups of a steps template that are made.
#![tactic(auto)]

mod groups;
pub mod law;

pub use groups::{GroupState, Member, Members, StepsStep, steps_next};
