//! The order of waiters.

ghost use Rattle.std.specs.Prelude.{◌≡◌};
ghost use Rattle.books.specs.Books as books;

use std::cmp::Ordering;
use tree_types::Rank;

// Higher priority, older creation, the workflow's name, its own request, the node's name.
fn compare(a: &Rank, b: &Rank) -> Ordering
    ensures { result ≡ books.rank_cmp a.now b.now }
{
    b.priority
        .cmp(&a.priority)
        .then(a.created.cmp(&b.created))
        .then_with(|| a.workflow.cmp(&b.workflow))
        .then(b.own.cmp(&a.own))
        .then_with(|| a.name.cmp(&b.name))
}

// Whether a waiter ranks before another.
pub(crate) fn is_before(a: &Rank, b: &Rank) -> bool
    ensures { result ≡ books.before a.now b.now }
{
    compare(a, b).is_lt()
}
