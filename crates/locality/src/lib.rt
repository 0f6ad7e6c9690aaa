//! The laws of places: what a call makes depends on what is recorded only by what is answered at its own path and below it.
//!
//! Each law is what a function of this crate ensures; the functions do nothing.
#![tactic(auto)]

pub mod facts;
pub mod laws;
