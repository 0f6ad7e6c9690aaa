//! A whole run on one thread: the submissions, perhaps the calls that a schedule says, and rounds of jobs until nothing is due.
#![tactic(auto)]

mod due;
mod end;
mod hand;
mod hand_job;
mod hand_step;
mod jobs;
mod playing;
mod resting;
mod roster;
mod round;
mod simulated;
mod submit;
mod whole_run;

pub use due::next_due;
pub use end::RunEnd;
pub use simulated::simulate;
pub use whole_run::sweep;
