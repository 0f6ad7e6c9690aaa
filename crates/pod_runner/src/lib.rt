//! A runner, which ends pods as the document plans it.
#![tactic(auto)]

mod answers;
mod calls;
mod outcome;
mod runner;
mod whole_job;

pub use answers::{RunDone, RunFault};
pub use runner::{PodJob, Runner};
pub use whole_job::run_pod;
