//! The facts of a workflow in order and by their paths, whose copies share what they have in common.
#![tactic(auto)]

mod answers;
mod facts;
mod key;
mod kind;
mod read;

pub use facts::SharedFacts;
