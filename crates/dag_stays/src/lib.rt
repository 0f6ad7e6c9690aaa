//! The tasks of a DAG that stay as they were where a fact is recorded below one of them, and what they made; and tasks that no other sees.
#![tactic(auto)]

mod following;
mod sought;
mod staying;
mod unseen;
mod were;

pub use following::{Following, is_undoomed, what_becomes};
pub use sought::call_of_task;
pub use unseen::{is_unseen, spares};
pub use were::Were;
