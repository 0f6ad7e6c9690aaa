//! Why a run ends before nothing is due.

ghost use Rattle.std.specs.Prelude.{◌≡◌};
ghost use Rattle.sim_schedule.specs.declared.end.RunEnd.TheVariants as ends;

use base_types::{Memory, Names};
use thiserror::Error;

/// Why a run ends before nothing is due.
#[derive(Debug, Drop, Error)]
pub enum RunEnd {
    /// Sixteen calls of the store in a row failed.
    #[error("store fault")]
    StoreFault,
    /// Nothing is due but in these workflows, in the order of their submission: the next fact of each would make a tree of
    /// more than 10,000 nodes.
    #[error("too large")]
    TooLarge { workflows: Names },
    #[error("out of memory")]
    Memory,
}

impl From<Memory> for RunEnd {
    ghost from_gives = { λ _ end. end ≡ ends.Memory };

    fn from(_: Memory) -> Self {
        RunEnd::Memory
    }
}
