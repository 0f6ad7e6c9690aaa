//! What was asked for.

ghost use Rattle.std.specs.Prelude.{◌≡◌};
ghost use Rattle.books.specs.Books as books;
ghost use Rattle.sync_locks.specs.Book.{key_by};

use base_types::{Shared, Text};
use tree_types::{HolderKey, LockId, Path, Rank};

// What a key asked for, which never changes.
#[derive(Drop)]
pub(crate) struct Asked {
    pub lock: LockId,
    pub key: HolderKey,
    pub rank: Shared<Rank>,
}

impl Asked {
    // Whether it is of the key of these parts. Those that are compared are mostly of other paths, and often of the same workflow.
    pub(crate) fn is_by(&self, workflow: &Text, path: &Path) -> bool
        ensures { result ≡ books.key_eq (key_by workflow.now path.now) self.now.key }
    {
        *path == self.key.path && *workflow == self.key.workflow
    }
}
