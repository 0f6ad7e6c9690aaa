//! Laws of workflows at rest, and of pods before their ends.
//!
//! Each law is what a function of this crate ensures; the functions do nothing.
#![tactic(auto)]

pub mod laws;
