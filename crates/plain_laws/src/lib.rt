//! A law of plain workflows: at the end of a run their trees follow from the planned outcomes alone.
//!
//! The law is what a function of this crate ensures; the function does nothing.
#![tactic(auto)]

pub mod laws;
