//! The order of paths, and the law that the nodes of a tree stand in it.
//!
//! The law is what a function of this crate ensures; that function does nothing.
#![tactic(auto)]

pub mod laws;
mod order;

pub use order::is_before;
