//! Manifests that are asked by the rules, each in its order, and those in which no rule finds anything.
#![tactic(auto)]

mod asking;
pub mod law;
mod valid;

pub use valid::{Valid, check};
