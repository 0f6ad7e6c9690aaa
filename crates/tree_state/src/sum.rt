//! What is kept of the lines below a node.

ghost use Rattle.std.specs.Prelude.{◌≡◌, ◌+◌, IfOk};
ghost use Rattle.meaning.specs.Lines.{nothing};
ghost use Rattle.tree_state.specs.Inside.Sums.{sum_of, sum_with};

use crate::kinds::Asks;
use base_types::Memory;

/// How many nodes and calls stand below a node, for how many pods and locks is asked there, how its calls ended, and which kinds of
/// lines stand there.
#[derive(Clone, Copy, Debug)]
pub(crate) struct Sum {
    pub(crate) nodes: u32,
    pub(crate) pods: u32,
    pub(crate) locks: u32,
    pub(crate) calls: u32,
    /// Whether all calls are finished.
    pub(crate) finished: bool,
    /// Whether some call Succeeded.
    pub(crate) succeeded: bool,
    /// Whether all calls Failed.
    pub(crate) fell: bool,
    pub(crate) asks: Asks,
}

impl Sum {
    pub(crate) fn nothing() -> Sum
        ensures { result ≡ sum_of nothing }
    {
        Sum {
            nodes: 0,
            pods: 0,
            locks: 0,
            calls: 0,
            finished: true,
            succeeded: false,
            fell: true,
            asks: Asks::nothing(),
        }
    }

    /// Both together.
    pub(crate) fn and(self, other: Sum) -> Result<Sum, Memory>
        ensures { IfOk result (λ sum. sum ≡ sum_with self other) }
    {
        Ok(Sum {
            nodes: together(self.nodes, other.nodes)?,
            pods: together(self.pods, other.pods)?,
            locks: together(self.locks, other.locks)?,
            calls: together(self.calls, other.calls)?,
            finished: self.finished && other.finished,
            succeeded: self.succeeded || other.succeeded,
            fell: self.fell && other.fell,
            asks: self.asks.and(other.asks),
        })
    }
}

// Two counts together. More than 32 bits can count is more than memory holds.
fn together(count: u32, more: u32) -> Result<u32, Memory>
    ensures { IfOk result (λ sum. sum ≡ count + more) }
{
    match count.checked_add(more) {
        None => Err(Memory),
        Some(sum) => Ok(sum),
    }
}

/// A count in 32 bits. More than these can count is more than memory holds.
pub(crate) fn small(count: usize) -> Result<u32, Memory>
    ensures { IfOk result (λ small. small ≡ count) }
{
    if count > u32::MAX as usize {
        return Err(Memory);
    }
    Ok(count as u32)
}
