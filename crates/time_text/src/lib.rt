//! Times in a document's texts: spans, instants, and the wait between two attempts of a retry.
#![tactic(auto)]

mod duration;
mod instant;
mod wait;

pub use duration::{DurationRefused, read_duration};
pub use instant::{TimeRefused, read_created};
pub use wait::backoff_delay;
