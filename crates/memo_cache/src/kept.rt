//! The saves of a cache, in order and in tables.

ghost use Rattle.std.specs.Prelude.{◌≡◌, ◌<◌, [], ◌∷◌, ◌++◌, IfOk};
ghost use Rattle.std.specs.Option.{option_copied};
ghost use Rattle.saves.specs.Saves as saves;
ghost use Rattle.buckets.specs.Buckets.{buckets};
ghost use Rattle.memo_cache.specs.Saving.{writer};
ghost use Rattle.memo_cache.specs.Inside.Tables as tables;

use crate::bucket::{key_bucket, writer_bucket};
use crate::table::{Bucket, Table, empty_table, has_in, last_in, with_one};
use base_types::{Memory, Text, TryCopy};
use saves::Saved;
use sharing::{Shared, SharedList};
use std::alloc::Global;
use std::marker::Model;
use tree_types::Path;

// Saves in the order in which they were made, and by their writers and by their keys. Copies share all of them.
#[derive(Drop)]
pub(crate) struct Kept {
    saves: SharedList<Saved>,
    writers: Table,
    keys: Table,
}

impl Model for Kept {
    ghost use Rattle.std.specs.Prelude.{List};
    ghost use Rattle.saves.specs.declared.Saved.{Saved};
    ghost use Rattle.memo_cache.specs.Inside.Tables.{IsIndexed};

    ghost Value = { List Saved };

    ghost view = { λ kept. kept.saves };

    ghost invariant = { λ kept. IsIndexed kept.saves kept.writers kept.keys };
}

impl Kept {
    pub(crate) fn new(alloc: Global) -> Result<Kept, Memory>
        ensures { IfOk result (λ kept. kept ≡ []) }
    {
        Ok(Kept {
            saves: SharedList::new(alloc)?,
            writers: empty_table(alloc)?,
            keys: empty_table(alloc)?,
        })
    }

    // The same saves and one more.
    pub(crate) fn with_save(&self, saved: Saved) -> Result<Kept, Memory>
        ensures { IfOk result (λ kept. kept ≡ self.now ++ saved ∷ []) }
    {
        let writer = writer_bucket(&saved.writer.workflow, &saved.writer.path);
        let key = key_bucket(&saved.cache, &saved.key);
        let saved = Shared::new(self.saves.allocator(), saved)?;
        let writers = with_one(&self.writers, writer, saved.copy()?)?;
        let keys = with_one(&self.keys, key, saved.copy()?)?;
        let mut saves = self.saves.share()?;
        saves.push_shared(saved)?;
        Ok(Kept {
            saves,
            writers,
            keys,
        })
    }

    fn by_writer(&self, bucket: usize) -> &Bucket
        requires { bucket < buckets }
        ensures { result.now ≡ tables.bucket_of tables.by_writer bucket self.now }
    {
        self.writers.get(bucket).unwrap()
    }

    fn by_key(&self, bucket: usize) -> &Bucket
        requires { bucket < buckets }
        ensures { result.now ≡ tables.bucket_of tables.by_key bucket self.now }
    {
        self.keys.get(bucket).unwrap()
    }

    // The last save of a key in a cache.
    pub(crate) fn last_save(&self, cache: &Text, key: &Text) -> Option<&Saved>
        ensures { option_copied result ≡ saves.last_save self.now cache.now key.now }
    {
        last_in(self.by_key(key_bucket(cache, key)), cache, key)
    }

    // Whether a path of a workflow saved something.
    pub(crate) fn has_saved(&self, workflow: &Text, path: &Path) -> bool
        ensures { result ≡ saves.has_saved (writer workflow.now path.now) self.now }
    {
        has_in(
            self.by_writer(writer_bucket(workflow, path)),
            workflow,
            path,
        )
    }
}

impl TryCopy for Kept {
    fn copy(&self) -> Result<Kept, Memory> {
        Ok(Kept {
            saves: self.saves.share()?,
            writers: self.writers.share()?,
            keys: self.keys.share()?,
        })
    }
}
