//! What the nodes of a tree ask for.

use crate::{LockId, Outputs, Path};
use base_types::{List, Text};

/// What a path asks for.
#[derive(Debug, Drop)]
pub enum Want {
    Pod(Path),
    Lock(Path, LockId),
    /// A look-up: the cache, the key, and the greatest age of an answer in seconds.
    LookUp(Path, Text, Text, Option<u64>),
    Arming(Path),
    /// A timer, with the tick at which it is due.
    Timer(Path, u64),
    /// A save of outputs: the cache, the key and the outputs.
    Save(Path, Text, Text, Outputs),
}

/// A list of wants.
pub type Wants = List<Want>;
