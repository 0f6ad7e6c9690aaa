//! What one recorded fact changes in a tree: the nodes on the way to it, while all others are shared.
#![tactic(auto)]

mod again;
mod beginning;
mod behind;
mod change;
mod dag_again;
mod front;
mod leaf;
mod share;

pub use again::made_again;
pub use change::changed_top;
pub use leaf::split;
