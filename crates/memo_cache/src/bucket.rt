//! In which buckets a save is.

ghost use Rattle.std.specs.Prelude.{◌≡◌, ◌<◌};
ghost use Rattle.buckets.specs.Buckets.{buckets};
ghost use Rattle.memo_cache.specs.Inside.Buckets as own;

use base_types::Text;
use buckets::{with_sels, with_text};
use tree_types::Path;

// The bucket of what a path of a workflow saved.
pub(crate) fn writer_bucket(workflow: &Text, path: &Path) -> usize
    ensures is { result ≡ own.writer_bucket workflow.now path.now.sels }
    ensures few { result < buckets }
{
    with_sels(with_text(0, workflow.as_str()), path.sels.as_slice())
}

// The bucket of the saves of a key in a cache.
pub(crate) fn key_bucket(cache: &Text, key: &Text) -> usize
    ensures is { result ≡ own.key_bucket cache.now key.now }
    ensures few { result < buckets }
{
    with_text(with_text(0, cache.as_str()), key.as_str())
}
