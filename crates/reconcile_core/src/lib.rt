//! A worker, which moves workflows on by single store calls: each is right whatever others did since it read.
#![tactic(auto)]

mod answers;
mod perform;
mod plan;
mod step;
mod whole_job;
mod worker;

pub use answers::{Ended, ReconcileFault, StepDone};
pub use whole_job::reconcile;
pub use worker::Worker;
