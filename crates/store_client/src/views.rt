//! What one job has read.

ghost use Rattle.std.specs.Prelude.{◌≡◌, [], None, Some, OnOk, OnErr, cond};
ghost use Rattle.std.specs.Option.{option_copied};
ghost use Rattle.history.specs.Keys.{same_key};
ghost use Rattle.tree_types.specs.declared.entry.Key.{Key};
ghost use Rattle.store_client.specs.Viewed.{view_of};

use base_types::{Memory, TryCopy};
use indexmap::IndexMap;
use object_store::{Content, Snapshot};
use std::alloc::Global;
use std::marker::Model;
use tree_types::Key;

/// The snapshots of a job, at most one of a key.
#[derive(Drop)]
pub struct Views<T: Content> {
    snapshots: IndexMap<Key, Snapshot<T>>,
}

impl<T: Content> Model for Views<T> {
    ghost use Rattle.std.specs.Prelude.{List};
    ghost use Rattle.tree_types.specs.declared.entry.Key.{Key};
    ghost use Rattle.object_store.specs.declared.snapshot.Snapshot.{Snapshot};

    ghost Value = { List (Key × Snapshot T) };

    ghost view = { λ views. views.snapshots.entries };
}

impl<T: Content> Views<T> {
    /// No snapshots. It takes no memory.
    pub fn new(alloc: Global) -> Self
        ensures { result ≡ [] }
    {
        Views {
            snapshots: IndexMap::new(alloc),
        }
    }

    /// The snapshot of a key.
    pub fn view(&self, key: &Key) -> Option<&Snapshot<T>>
        ensures { option_copied result ≡ view_of self.now key.now }
    {
        self.snapshots.get(key)
    }

    /// Keeps a snapshot, in place of another of its key.
    pub fn keep(&mut self, snapshot: Snapshot<T>) -> Result<(), Memory>
        ensures ok { OnOk result ((key : Key) → view_of self.new key
            ≡ cond (same_key snapshot.key key) (Some snapshot) (view_of self.old key)) }
        ensures err { OnErr result (self.new ≡ self.old) }
    {
        self.snapshots.insert(snapshot.key.copy()?, snapshot)?;
        Ok(())
    }

    /// Forgets all.
    pub fn clear(&mut self)
        ensures { self.new ≡ [] }
    {
        self.snapshots.clear();
    }
}
