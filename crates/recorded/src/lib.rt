//! What is recorded of a workflow, as an evaluator of its tree asks for it.
#![tactic(auto)]

mod ended;
mod recorded;

pub use ended::Ended;
pub use recorded::{MemoAnswer, Recorded};
