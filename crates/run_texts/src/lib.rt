//! The text of a run, read off the store at its end.
#![tactic(auto)]

mod counting;
mod large;
mod shown;
mod texts;
mod trees;

pub use large::too_large_text;
pub use shown::Shown;
pub use texts::run_text;
