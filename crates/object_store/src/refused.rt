//! Why a store refuses a call.

ghost use Rattle.std.specs.Prelude.{◌≡◌};
ghost use Rattle.object_store.specs.declared.refused.StoreRefused.TheVariants as refused;

use base_types::Memory;
use std::alloc::{AllocError, AllocFailed};
use thiserror::Error;

/// Why a call added no entry.
#[derive(Clone, Copy, Debug, PartialEq, Eq, Error)]
pub enum StoreRefused {
    #[error("there is no such object")]
    NoObject,
    #[error("the object exists")]
    Exists,
    /// The object moved on from the version that the caller had read.
    #[error("the object has version {found}, not {expected}")]
    Conflict { expected: u64, found: u64 },
    /// The clock does not go back, nor stand.
    #[error("the clock stands at {clock}")]
    Behind { clock: u64 },
    #[error("the store cannot be reached")]
    Fault,
    #[error("out of memory")]
    Memory,
}

impl From<Memory> for StoreRefused {
    ghost from_gives = { λ _ e. e ≡ refused.Memory };

    fn from(_: Memory) -> Self {
        StoreRefused::Memory
    }
}

impl From<AllocError> for StoreRefused {
    ghost from_gives = { λ _ e. e ≡ refused.Memory };

    fn from(_: AllocError) -> Self {
        StoreRefused::Memory
    }
}

impl<T: Drop> From<AllocFailed<T>> for StoreRefused {
    ghost from_gives = { λ _ e. e ≡ refused.Memory };

    fn from(_: AllocFailed<T>) -> Self {
        StoreRefused::Memory
    }
}
