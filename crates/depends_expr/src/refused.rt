//! Why a text gives no `depends`.

use base_types::Memory;
use std::alloc::{AllocError, AllocFailed};
use thiserror::Error;

/// A text that is no `depends`, or want of memory.
#[derive(Clone, Copy, Debug, PartialEq, Eq, Error)]
pub enum DependsRefused {
    /// The byte, from 0, at which the longest front ends that some text of the grammar begins with.
    #[error("not a depends at byte {place}")]
    Bad { place: usize },
    #[error("out of memory")]
    Memory,
}

impl From<Memory> for DependsRefused {
    ghost use Rattle.std.specs.Prelude.{◌≡◌};
    ghost use Rattle.depends_expr.specs.declared.refused.DependsRefused.TheVariants as refused;

    ghost from_gives = { λ _ e. e ≡ refused.Memory };

    fn from(_: Memory) -> Self {
        DependsRefused::Memory
    }
}

impl From<AllocError> for DependsRefused {
    ghost use Rattle.std.specs.Prelude.{◌≡◌};
    ghost use Rattle.depends_expr.specs.declared.refused.DependsRefused.TheVariants as refused;

    ghost from_gives = { λ _ e. e ≡ refused.Memory };

    fn from(_: AllocError) -> Self {
        DependsRefused::Memory
    }
}

impl<T: Drop> From<AllocFailed<T>> for DependsRefused {
    ghost use Rattle.std.specs.Prelude.{◌≡◌};
    ghost use Rattle.depends_expr.specs.declared.refused.DependsRefused.TheVariants as refused;

    ghost from_gives = { λ _ e. e ≡ refused.Memory };

    fn from(_: AllocFailed<T>) -> Self {
        DependsRefused::Memory
    }
}
