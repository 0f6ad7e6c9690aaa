//! Why words say no order.

ghost use Rattle.std.specs.Prelude.{◌≡◌};
ghost use Rattle.command_words.specs.declared.refused.WordsRefused.TheVariants as variant;

use base_types::Memory;
use std::alloc::AllocError;
use thiserror::Error;

/// Why words say no order.
#[derive(Clone, Copy, Debug, PartialEq, Eq, Error)]
pub enum WordsRefused {
    /// They are not of the command.
    #[error("usage")]
    Usage,
    #[error("out of memory")]
    Memory,
}

impl From<Memory> for WordsRefused {
    ghost from_gives = { λ _ refused. refused ≡ variant.Memory };

    fn from(_: Memory) -> Self {
        WordsRefused::Memory
    }
}

impl From<AllocError> for WordsRefused {
    ghost from_gives = { λ _ refused. refused ≡ variant.Memory };

    fn from(_: AllocError) -> Self {
        WordsRefused::Memory
    }
}
