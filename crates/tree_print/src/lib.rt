//! The printed text of node trees, and of the counts of a run.
#![tactic(auto)]

mod counts;
mod escape;
mod line;
mod note;
mod summary;
mod tree;

pub use counts::Counts;
pub use summary::print_summary;
pub use tree::print_tree;
