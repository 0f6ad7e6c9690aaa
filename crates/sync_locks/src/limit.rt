//! How many may hold a lock.

ghost use Rattle.std.specs.Prelude.{◌≡◌};
ghost use Rattle.books.specs.Books as books;

use tree_types::{Limits, LockId};

// The first number that is given for a lock, and 0 where none is.
fn given(limits: &Limits, lock: &LockId) -> u64
    ensures { result ≡ books.given limits.now lock.now.text }
{
    for limit in limits.as_slice() {
        if limit.lock.text == lock.text {
            return limit.limit;
        }
    }
    0
}

// The limit of a lock, which is 1 for a mutex.
pub(crate) fn limit_of(limits: &Limits, lock: &LockId) -> u64
    ensures { result ≡ books.limit_of limits.now lock.now.text }
{
    if lock.text.as_str().starts_with("mutex/") {
        1
    } else {
        given(limits, lock)
    }
}
