//! What a manifest and recorded facts mean: the node tree of a workflow, what its nodes ask for, and which tasks may begin.
//!
//! The meaning itself stands in this crate's definitions. Its code is only the types of a place and of a line.
#![tactic(auto)]

mod lines;

pub use lines::{Line, Place};
