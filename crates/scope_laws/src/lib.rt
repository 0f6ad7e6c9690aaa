//! The laws of scopes: what a call makes depends on them only by the values that they give to tags.
//!
//! Each law is what a function of this crate ensures; the functions do nothing.
#![tactic(auto)]

pub mod laws;
