//! How the tasks of a DAG are gone through: in which order, which of them exist, and which waits for which.
#![tactic(auto)]

mod behind;
mod marks;
mod order;
mod plan;
mod spread;
mod targets;

pub use plan::DagPlan;
