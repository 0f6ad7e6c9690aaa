//! The laws of what a worker and a runner do next.
//!
//! Each law is what a function of this crate ensures; the functions do nothing.
#![tactic(auto)]

pub mod laws;
