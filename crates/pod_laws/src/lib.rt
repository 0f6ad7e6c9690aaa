//! The laws of the pods and locks that a workflow asks for anew: how few there are is told by counts alone, whatever the form of
//! the workflow, since what is asked for stays asked for until it is answered, and nothing is asked for twice.
//!
//! Each law is what a function of this crate ensures; the functions do nothing.
#![tactic(auto)]

pub mod laws;
