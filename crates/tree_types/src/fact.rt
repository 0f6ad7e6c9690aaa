//! What is recorded of a workflow.

use crate::{Outcome, Outputs, Path};
use base_types::{List, Shared};

/// A recorded fact. The tree of a workflow follows from its manifest and its facts alone.
#[derive(Debug, Drop)]
pub enum Fact {
    /// The workflow was begun.
    Started,
    /// The pod of this path ended so.
    Settled(Path, Shared<Outcome>),
    /// The pod of this path ended so in the workflow that this one was resubmitted from.
    Carried(Path, Shared<Outcome>),
    /// The path was granted its lock; the empty path, the workflow's own.
    Granted(Path),
    /// What a cache answered: the kept outputs, or that it has none.
    Memo(Path, Option<Shared<Outputs>>),
    /// The tick from which a suspended node's duration counts.
    Armed(Path, u64),
    /// The timer of this path is due: a suspended node's, or that of a next attempt.
    Due(Path),
    /// A suspended node was resumed.
    Resumed(Path),
    /// A task of a DAG with `failFast` was begun.
    Begun(Path),
}

/// A list of facts.
pub type Facts = List<Fact>;
