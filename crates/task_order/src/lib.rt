//! What the tasks of a DAG wait for: whether in a circle for each other, which task is an ancestor of which, and an order in
//! which each stands behind those that it waits for.
#![tactic(auto)]

mod ancestors;
mod graph;
pub mod law;
mod names;
mod ordering;
mod places;
mod rows;
mod stage;
mod walk;

pub use ancestors::Ancestors;
pub use names::{NameTable, table_of};
pub use ordering::order_of;
pub use rows::{places_named, rows_of};
