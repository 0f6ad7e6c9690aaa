//! What a `Workflow` resource reads as.
#![tactic(auto)]

pub mod law;
pub mod limits;
mod metadata;
mod workflow;

pub use metadata::Created;
pub use workflow::read_workflow;
