//! What a store begins with.

ghost use Rattle.std.specs.Prelude.{◌≡◌, IfOk};
ghost use Rattle.wf_object.specs.Kept.{start_of};

use crate::WfContent;
use base_types::Memory;
use memo_cache::Cache;
use object_store::Starts;
use std::alloc::Global;
use sync_locks::LockBook;
use tree_types::{Key, Limits};

/// An empty lock book under these limits, and no saves.
pub fn starts(alloc: Global, limits: Limits) -> Result<Starts<WfContent>, Memory>
    ensures { IfOk result (λ starts. starts ≡ start_of limits) }
{
    let mut starts = Starts::new(alloc);
    starts.add(
        Key::Locks,
        WfContent::of_locks(alloc, LockBook::new(limits)?)?,
    )?;
    starts.add(Key::Caches, WfContent::of_caches(alloc, Cache::new(alloc))?)?;
    Ok(starts)
}
