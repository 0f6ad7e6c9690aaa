//! In which bucket the requests of a key are.

ghost use Rattle.std.specs.Prelude.{◌≡◌, ◌<◌};
ghost use Rattle.buckets.specs.Buckets.{buckets};
ghost use Rattle.sync_locks.specs.Inside.Buckets as own;

use base_types::Text;
use buckets::{with_sels, with_text};
use tree_types::Path;

// The bucket of the key of these parts.
pub(crate) fn bucket_of(workflow: &Text, path: &Path) -> usize
    ensures is { result ≡ own.bucket_of workflow.now path.now.sels }
    ensures few { result < buckets }
{
    with_sels(with_text(0, workflow.as_str()), path.sels.as_slice())
}
