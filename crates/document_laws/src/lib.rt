//! The laws of a document that was read.
#![tactic(auto)]

pub mod laws;
