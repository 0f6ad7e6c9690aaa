//! Why a book does not take a filing or a release.

ghost use Rattle.std.specs.Prelude.{◌≡◌};
ghost use Rattle.sync_locks.specs.declared.refused.FileRefused.TheVariants as refused;
ghost use Rattle.sync_locks.specs.declared.refused.ReleaseRefused.TheVariants as release_refused;

use base_types as base;
use std::alloc::{AllocError, AllocFailed};
use thiserror::Error;

/// Why a request is not filed.
#[derive(Clone, Copy, Debug, PartialEq, Eq, Error)]
pub enum FileRefused {
    /// The key has a request already, however it stands.
    #[error("the key has a request already")]
    Known,
    #[error("out of memory")]
    Memory,
}

impl From<base::Memory> for FileRefused {
    ghost from_gives = { λ _ e. e ≡ refused.Memory };

    fn from(_: base::Memory) -> Self {
        FileRefused::Memory
    }
}

/// Why no lock is released.
#[derive(Clone, Copy, Debug, PartialEq, Eq, Error)]
pub enum ReleaseRefused {
    #[error("the key holds no lock")]
    NotHolding,
    #[error("out of memory")]
    Memory,
}

impl From<base::Memory> for ReleaseRefused {
    ghost from_gives = { λ _ e. e ≡ release_refused.Memory };

    fn from(_: base::Memory) -> Self {
        ReleaseRefused::Memory
    }
}
