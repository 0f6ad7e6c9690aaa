//! Why a text gives no `when`.

use base_types::Memory;
use std::alloc::{AllocError, AllocFailed};
use thiserror::Error;

/// A text that is no `when`, or want of memory.
#[derive(Clone, Copy, Debug, PartialEq, Eq, Error)]
pub enum WhenRefused {
    /// The byte, from 0, at which the longest front ends that some text of the grammar begins with.
    #[error("not a when at byte {place}")]
    Bad { place: usize },
    #[error("out of memory")]
    Memory,
}

/// An order test was reached with a side that is not a whole number.
#[derive(Clone, Copy, Debug, PartialEq, Eq, Error)]
#[error("not numbers")]
pub struct NotNumbers;

impl From<Memory> for WhenRefused {
    ghost use Rattle.std.specs.Prelude.{◌≡◌};
    ghost use Rattle.when_expr.specs.declared.refused.WhenRefused.TheVariants as refused;

    ghost from_gives = { λ _ e. e ≡ refused.Memory };

    fn from(_: Memory) -> Self {
        WhenRefused::Memory
    }
}

impl From<AllocError> for WhenRefused {
    ghost use Rattle.std.specs.Prelude.{◌≡◌};
    ghost use Rattle.when_expr.specs.declared.refused.WhenRefused.TheVariants as refused;

    ghost from_gives = { λ _ e. e ≡ refused.Memory };

    fn from(_: AllocError) -> Self {
        WhenRefused::Memory
    }
}

impl<T: Drop> From<AllocFailed<T>> for WhenRefused {
    ghost use Rattle.std.specs.Prelude.{◌≡◌};
    ghost use Rattle.when_expr.specs.declared.refused.WhenRefused.TheVariants as refused;

    ghost from_gives = { λ _ e. e ≡ refused.Memory };

    fn from(_: AllocFailed<T>) -> Self {
        WhenRefused::Memory
    }
}
