//! The cache.

ghost use Rattle.std.specs.Prelude.{◌≡◌, ◌++◌, ◌∷◌, [], IfOk, OnOk, OnErr};
ghost use Rattle.std.specs.Option.{option_copied};
ghost use Rattle.saves.specs.Saves as saves;
ghost use Rattle.memo_cache.specs.Saving.{writer};

use crate::SaveRefused;
use crate::kept::Kept;
use base_types::{Memory, Shared, Text, TryCopy};
use saves::Saved;
use std::alloc::Global;
use std::marker::Model;
use tree_types::{HolderKey, Outputs, Path};

/// Saves in the order in which they were made. Copies share them.
pub struct Cache {
    alloc: Global,
    // Nothing before the first save, so that an empty cache takes no memory.
    kept: Option<Kept>,
}

// Written out, so that proofs about code that drops a cache see one call.
impl Drop for Cache {
    fn drop(self) {
        let Cache { alloc: _, kept: _ } = self;
    }
}

impl Model for Cache {
    ghost use Rattle.std.specs.Prelude.{List};
    ghost use Rattle.saves.specs.declared.Saved.{Saved};
    ghost use Rattle.memo_cache.specs.Inside.Tables.{saves_in};

    ghost Value = { List Saved };

    ghost view = { λ cache. saves_in cache.kept };
}

impl Cache {
    ghost use Rattle.std.specs.Prelude.{◌↔◌, IsErrOf, IsTrue};
    ghost use Rattle.memo_cache.specs.Saving.{save_of};

    /// The cache without saves, which takes no memory.
    pub fn new(alloc: Global) -> Cache
        ensures { result ≡ [] }
    {
        Cache { alloc, kept: None }
    }

    /// The outputs of the last save of a key in a cache, unless at the moment `now` it is older than the greatest age.
    pub fn look(
        &self,
        cache: &Text,
        key: &Text,
        now: u64,
        max_age: Option<u64>,
    ) -> Option<&Shared<Outputs>>
        ensures { option_copied result ≡ saves.look self.now cache.now key.now now max_age }
    {
        match self.last_save(cache, key) {
            None => None,
            Some(saved) => match max_age {
                Some(age) if now.saturating_sub(saved.tick) > age => None,
                _ => Some(&saved.outputs),
            },
        }
    }

    /// Whether a path of a workflow has saved outputs.
    pub fn has_saved(&self, workflow: &Text, path: &Path) -> bool
        ensures { result ≡ saves.has_saved (writer workflow.now path.now) self.now }
    {
        match &self.kept {
            None => false,
            Some(kept) => kept.has_saved(workflow, path),
        }
    }

    /// Saves outputs, once for a writer.
    pub fn save(
        &mut self,
        cache: Text,
        key: Text,
        writer: HolderKey,
        outputs: Shared<Outputs>,
        tick: u64,
    ) -> Result<(), SaveRefused>
        ensures saved { IsErrOf result SaveRefused.Saved
            ↔ IsTrue (saves.has_saved writer self.old) }
        ensures ok { OnOk result
            (self.new ≡ self.old ++ save_of cache key writer outputs tick ∷ []) }
        ensures err { OnErr result (self.new ≡ self.old) }
    {
        if self.has_saved(&writer.workflow, &writer.path) {
            Err(SaveRefused::Saved)
        } else {
            let saved = Saved {
                cache,
                key,
                writer,
                outputs,
                tick,
            };
            self.kept = Some(self.with_save(saved)?);
            Ok(())
        }
    }

    // The last save of a key in a cache.
    fn last_save(&self, cache: &Text, key: &Text) -> Option<&Saved>
        ensures { option_copied result ≡ saves.last_save self.now cache.now key.now }
    {
        match &self.kept {
            None => None,
            Some(kept) => kept.last_save(cache, key),
        }
    }

    // What is kept with one save more.
    fn with_save(&self, saved: Saved) -> Result<Kept, Memory>
        ensures { IfOk result (λ kept. kept ≡ self.now ++ saved ∷ []) }
    {
        match &self.kept {
            None => Kept::new(self.alloc)?.with_save(saved),
            Some(kept) => kept.with_save(saved),
        }
    }
}

impl TryCopy for Cache {
    // An equal cache, which shares the saves.
    fn copy(&self) -> Result<Cache, Memory> {
        Ok(Cache {
            alloc: self.alloc,
            kept: self.kept.copy()?,
        })
    }
}
