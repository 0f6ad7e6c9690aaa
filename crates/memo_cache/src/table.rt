//! Tables of saves, and the looks into one bucket.

ghost use Rattle.std.specs.Prelude.{◌≡◌, ◌<◌, [], length, replicate, IfOk};
ghost use Rattle.std.specs.Option.{option_copied};
ghost use Rattle.saves.specs.Saves as saves;
ghost use Rattle.buckets.specs.Buckets.{buckets};
ghost use Rattle.memo_cache.specs.Saving.{writer};
ghost use Rattle.memo_cache.specs.Inside.Tables as tables;

use base_types::{Memory, Text};
use buckets::BUCKETS;
use saves::Saved;
use sharing::{Shared, SharedList};
use std::alloc::Global;
use tree_types::Path;

// The saves that belong to one bucket, in order.
pub(crate) type Bucket = SharedList<Saved>;

// Saves in buckets, which copies share.
pub(crate) type Table = SharedList<Bucket>;

// The table without saves, whose buckets are all one.
pub(crate) fn empty_table(alloc: Global) -> Result<Table, Memory>
    ensures { IfOk result (λ table. table ≡ replicate buckets []) }
{
    let empty = SharedList::new(alloc)?;
    Ok(SharedList::filled(alloc, empty, BUCKETS)?)
}

// The same table with one save more at the end of a bucket.
pub(crate) fn with_one(table: &Table, bucket: usize, saved: Shared<Saved>) -> Result<Table, Memory>
    requires { bucket < length table.now }
    ensures { IfOk result (λ more. more ≡ tables.with_one bucket saved table.now) }
{
    let mut items = table.get(bucket).unwrap().share()?;
    items.push_shared(saved)?;
    let mut more = table.share()?;
    more.set(bucket, items)?;
    Ok(more)
}

fn is_of(saved: &Saved, cache: &Text, key: &Text) -> bool
    ensures { result ≡ saves.is_of cache.now key.now saved.now }
{
    saved.cache == *cache && saved.key == *key
}

fn is_by(saved: &Saved, workflow: &Text, path: &Path) -> bool
    ensures { result ≡ saves.is_by (writer workflow.now path.now) saved.now }
{
    saved.writer.workflow == *workflow && saved.writer.path == *path
}

// The last save of a key in a cache, if it is in a bucket.
pub(crate) fn last_in<'a>(bucket: &'a Bucket, cache: &Text, key: &Text) -> Option<&'a Saved>
    ensures { option_copied result ≡ saves.last_save bucket.now cache.now key.now }
{
    let mut left = bucket.len();
    while left > 0 {
        left -= 1;
        let saved = bucket.get(left).unwrap();
        if is_of(saved, cache, key) {
            return Some(saved);
        }
    }
    None
}

// Whether a path of a workflow saved something that is in a bucket.
pub(crate) fn has_in(bucket: &Bucket, workflow: &Text, path: &Path) -> bool
    ensures { result ≡ saves.has_saved (writer workflow.now path.now) bucket.now }
{
    for position in 0..bucket.len() {
        if is_by(bucket.get(position).unwrap(), workflow, path) {
            return true;
        }
    }
    false
}
