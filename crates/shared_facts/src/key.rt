//! In which bucket the facts of a path are.

ghost use Rattle.std.specs.Prelude.{◌≡◌, ◌<◌};
ghost use Rattle.buckets.specs.Buckets.{buckets};
ghost use Rattle.shared_facts.specs.Inside.Keys as keys;

use buckets::with_sels;
use tree_types::Sel;

pub fn key_of(sels: &[Sel]) -> usize
    ensures is { result ≡ keys.key_of sels.now }
    ensures few { result < buckets }
{
    with_sels(0, sels)
}
