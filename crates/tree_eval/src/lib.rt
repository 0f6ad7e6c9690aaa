//! The tree of a manifest over what is recorded of it: its nodes, what they ask for, which tasks may begin, and the phase
//! of the workflow.
#![tactic(auto)]

pub mod law;
mod roots;
mod stages;
mod tops;
mod whole;
mod workflow_tree;

pub use recorded::{Ended, MemoAnswer, Recorded};
pub use tree_state::{Clue, NodeTest, TreeRefused, WantKind, WantTest};
pub use whole::{Evaluated, evaluate, tree, wants};
pub use workflow_tree::WorkflowTree;
