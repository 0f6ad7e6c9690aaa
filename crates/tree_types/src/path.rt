//! Places in a node tree, and the names of locks.

use base_types::{SharedSlice, Text};

/// One selector of a path; the numbers are positions from 0 in the manifest's lists, or the number of an attempt.
#[derive(Clone, Copy, Debug, PartialEq, Eq, Hash)]
pub enum Sel {
    Main,
    Exit,
    Group(u32),
    Step(u32),
    Task(u32),
    Item(u32),
    Attempt(u32),
}

/// A list of selectors, which its copies share.
pub type Sels = SharedSlice<Sel>;

/// A place in a node tree, from the entrypoint (`Main`) or the exit handler (`Exit`) down. The empty path stands for the
/// workflow itself, as the holder of its own lock.
#[derive(Debug, PartialEq, Eq, Hash, Drop)]
pub struct Path {
    pub sels: Sels,
}

/// The name of a lock: `mutex/NAME` or `semaphore/MAP/KEY`.
#[derive(Debug, PartialEq, Eq, Hash, Drop)]
pub struct LockId {
    pub text: Text,
}
