//! Why a line gives no entry.

ghost use Rattle.std.specs.Prelude.{◌≡◌};
ghost use Rattle.history_text.specs.declared.fault.Fault.TheVariants as fault;

use base_types::Memory;
use std::alloc::{AllocError, AllocFailed};

/// Why a line gives no entry.
#[derive(Clone, Copy, Debug, PartialEq, Eq)]
pub(crate) enum Fault {
    /// It is that of none.
    Other,
    Memory,
}

impl From<Memory> for Fault {
    ghost from_gives = { λ _ made. made ≡ fault.Memory };

    fn from(_: Memory) -> Fault {
        Fault::Memory
    }
}

impl From<AllocError> for Fault {
    ghost from_gives = { λ _ made. made ≡ fault.Memory };

    fn from(_: AllocError) -> Fault {
        Fault::Memory
    }
}

impl<T: Drop> From<AllocFailed<T>> for Fault {
    ghost from_gives = { λ _ made. made ≡ fault.Memory };

    fn from(_: AllocFailed<T>) -> Fault {
        Fault::Memory
    }
}
