//! Laws of whole jobs, rounds and runs that nobody disturbs.
//!
//! Each law is what a function of this crate ensures; the functions do nothing.
#![tactic(auto)]

pub mod laws;
