//! In which bucket of a table is what is filed under a text or a path.

ghost use Rattle.std.specs.Prelude.{◌≡◌, ◌<◌, ◌+◌, ◌^◌};
ghost use Rattle.buckets.specs.Buckets as buckets;

use tree_types::Sel;

/// How many buckets there are.
pub const BUCKETS: usize = 4096;

// An odd number, so that different numbers of one selector give different buckets, and different texts of one length mostly do.
const SPREAD: usize = 2531;

fn code_of(sel: Sel) -> usize
    ensures is { result ≡ buckets.code_of sel }
    ensures few { result < 2 ^ 33 }
{
    match sel {
        Sel::Main => 1,
        Sel::Exit => 2,
        Sel::Group(number) => number as usize + 401,
        Sel::Step(number) => number as usize + 809,
        Sel::Task(number) => number as usize + 1217,
        Sel::Item(number) => number as usize + 1627,
        Sel::Attempt(number) => number as usize + 2039,
    }
}

/// The bucket of what came before and a text behind it.
pub fn with_text(bucket: usize, text: &str) -> usize
    requires { bucket < buckets.buckets }
    ensures is { result ≡ buckets.with_text bucket text.now }
    ensures few { result < buckets.buckets }
{
    let mut bucket = bucket;
    for byte in text.as_bytes() {
        bucket = (bucket * SPREAD + *byte as usize) % BUCKETS;
    }
    bucket
}

/// The bucket of what came before and selectors behind it.
pub fn with_sels(bucket: usize, sels: &[Sel]) -> usize
    requires { bucket < buckets.buckets }
    ensures is { result ≡ buckets.with_sels bucket sels.now }
    ensures few { result < buckets.buckets }
{
    let mut bucket = bucket;
    for sel in sels {
        bucket = (bucket * SPREAD + code_of(*sel)) % BUCKETS;
    }
    bucket
}
