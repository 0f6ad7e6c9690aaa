//! Objects as they were read.

use tree_types::Key;

/// An object as it was at some moment: its key, the number of its version, its content, and the clock.
#[derive(Debug, Drop)]
pub struct Snapshot<C> {
    pub key: Key,
    pub version: u64,
    pub content: C,
    pub tick: u64,
}
