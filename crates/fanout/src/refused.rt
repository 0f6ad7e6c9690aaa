//! Why a loop has no items.

ghost use Rattle.std.specs.Prelude.{◌≡◌};
ghost use Rattle.fanout.specs.declared.refused.FanRefused.TheVariants as refused;

use base_types::{Memory, Text};
use std::alloc::{AllocError, AllocFailed};
use thiserror::Error;

/// The first fault of a loop.
#[derive(Debug, Drop, Error)]
pub enum FanRefused {
    #[error("not a list")]
    NotList,
    #[error("a number is no whole number of 64 bits")]
    BadItem,
    #[error("not a number of a sequence")]
    BadNumber,
    #[error("not a format of a sequence")]
    BadFormat,
    #[error("more than 1,000 items")]
    TooManyItems,
    #[error("no value for {tag}")]
    Unresolved { tag: Text },
    #[error("out of memory")]
    Memory,
}

impl From<Memory> for FanRefused {
    ghost from_gives = { λ _ e. e ≡ refused.Memory };

    fn from(_: Memory) -> Self {
        FanRefused::Memory
    }
}

impl From<AllocError> for FanRefused {
    ghost from_gives = { λ _ e. e ≡ refused.Memory };

    fn from(_: AllocError) -> Self {
        FanRefused::Memory
    }
}

impl<T: Drop> From<AllocFailed<T>> for FanRefused {
    ghost from_gives = { λ _ e. e ≡ refused.Memory };

    fn from(_: AllocFailed<T>) -> Self {
        FanRefused::Memory
    }
}
