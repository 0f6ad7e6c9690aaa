//! A worker's job on one workflow: what it has read and noted, what it does next by that, and what an answer makes of it.
#![tactic(auto)]

mod fresh;
mod held;
mod job;
mod marks;
mod matter;
mod queries;
mod reading;
mod steps;
mod to_file;
mod to_save;

pub use job::Job;
pub use matter::{Matter, Next, Resubmission};
