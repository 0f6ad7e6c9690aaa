//! When exit hooks run, and the phase of a workflow with an exit handler.
#![tactic(auto)]

mod exits;
pub mod law;

pub use exits::{hook_runs, workflow_phase};
