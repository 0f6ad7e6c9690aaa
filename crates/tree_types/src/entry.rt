//! The entries of the store's history, and the keys of its objects.

use crate::{Facts, LockId, Outcome, Outputs, Path};
use base_types::{List, Shared, Text};

/// The key of an object in the store.
#[derive(Debug, PartialEq, Eq, Hash, Drop)]
pub enum Key {
    Workflow(Text),
    /// The pod of a workflow, by the name of its node.
    Pod(Text, Text),
    Locks,
    Caches,
}

/// The holder of a lock: a node of a workflow, or with the empty path the workflow itself.
#[derive(Debug, PartialEq, Eq, Hash, Drop)]
pub struct HolderKey {
    pub workflow: Text,
    pub path: Path,
}

/// By what waiters of a lock are ranked: the workflow's priority, its creation in Unix seconds, its name, whether the
/// workflow itself asks, and the node's name.
#[derive(Debug, Drop)]
pub struct Rank {
    pub priority: i32,
    pub created: i64,
    pub workflow: Text,
    pub own: bool,
    pub name: Text,
}

/// How many may hold a lock.
#[derive(Debug, Drop)]
pub struct Limit {
    pub lock: LockId,
    pub limit: u64,
}

/// A list of limits.
pub type Limits = List<Limit>;

/// A change that the store accepted by one call.
#[derive(Debug)]
pub enum Entry {
    /// A workflow was submitted, perhaps from an old one, with these facts carried over.
    Submit {
        workflow: Text,
        old: Option<Text>,
        facts: Facts,
    },
    /// Facts were added to a workflow, which has this version then.
    Write {
        workflow: Text,
        version: u64,
        facts: Facts,
    },
    /// A pod was made for a node, at the tick `begin`.
    Create {
        workflow: Text,
        node: Text,
        path: Path,
        begin: u64,
    },
    /// A pod ended.
    Finish {
        workflow: Text,
        node: Text,
        outcome: Shared<Outcome>,
    },
    /// A request for a lock was filed.
    File {
        lock: LockId,
        key: HolderKey,
        rank: Shared<Rank>,
    },
    /// A lock was released.
    Release {
        lock: LockId,
        key: HolderKey,
    },
    /// Outputs were saved in a cache.
    Save {
        cache: Text,
        key: Text,
        writer: HolderKey,
        outputs: Shared<Outputs>,
        tick: u64,
    },
    /// The clock moved.
    Tick {
        to: u64,
    },
}

// Written out, so that proofs about code that drops an entry see one call and not a match over its kinds.
impl Drop for Entry {
    fn drop(self) {
        match self {
            Entry::Submit {
                workflow: _,
                old: _,
                facts: _,
            } => {}
            Entry::Write {
                workflow: _,
                version: _,
                facts: _,
            } => {}
            Entry::Create {
                workflow: _,
                node: _,
                path: _,
                begin: _,
            } => {}
            Entry::Finish {
                workflow: _,
                node: _,
                outcome: _,
            } => {}
            Entry::File {
                lock: _,
                key: _,
                rank: _,
            } => {}
            Entry::Release { lock: _, key: _ } => {}
            Entry::Save {
                cache: _,
                key: _,
                writer: _,
                outputs: _,
                tick: _,
            } => {}
            Entry::Tick { to: _ } => {}
        }
    }
}

/// A list of entries.
pub type Entries = List<Entry>;
