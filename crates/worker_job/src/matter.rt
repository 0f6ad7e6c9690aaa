//! What a worker does.

use base_types::{Shared, Text};
use tree_types::{Fact, HolderKey, Key, LockId, Outputs, Path, Rank};

/// A workflow that is over is submitted once more, under another name.
#[derive(Debug, Drop)]
pub struct Resubmission {
    pub tick: u64,
    pub old: Text,
    pub name: Text,
    /// Whether what Succeeded is carried over.
    pub memoized: bool,
    /// The creation of the new workflow in Unix seconds.
    pub created: i64,
}

/// A change of one object.
#[derive(Debug, Drop)]
pub enum Matter {
    /// A fact is written to the workflow.
    RecordFact(Fact),
    /// A request for a lock is filed.
    File(LockId, HolderKey, Shared<Rank>),
    /// The pod of a node is made, by the name of the node.
    Create(Path, Text),
    /// Outputs are saved: the cache, the key, the writer, and the outputs.
    Save(Text, Text, HolderKey, Outputs),
    /// A lock is released.
    Release(LockId, HolderKey),
    Submit(Resubmission),
}

/// A read, a change, or the end of the job.
#[derive(Debug, Drop)]
pub enum Next {
    Get(Key),
    Act(Matter),
    Done,
}
