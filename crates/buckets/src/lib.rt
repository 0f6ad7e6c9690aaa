//! Numbers below 4,096 for texts and paths, by which tables find what is filed under them.
#![tactic(auto)]

mod bucket;

pub use bucket::{BUCKETS, with_sels, with_text};
