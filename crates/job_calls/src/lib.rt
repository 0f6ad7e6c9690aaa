//! The calls of a client, as a job is answered.
#![tactic(auto)]

mod calls;

pub use calls::{create, get, write};
