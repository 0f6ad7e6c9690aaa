//! A workflow's tree that is kept while facts are added: its manifest, the facts that are recorded of it, and what they mean.
#![tactic(auto)]

mod answered;
mod finding;
mod new_locks;
mod new_pods;
mod next;
mod state;

pub use new_pods::NewPods;
pub use state::TreeState;
pub use tree_eval::{Evaluated, NodeTest, TreeRefused, WantKind, WantTest};
