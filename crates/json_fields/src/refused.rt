//! Why a field was not taken.

ghost use Rattle.std.specs.Prelude.{◌≡◌};

use crate::FieldPath;
use base_types::Memory;
use thiserror::Error;

/// Why a field was not taken.
#[derive(Debug, Drop, Error)]
pub enum FieldRefused {
    #[error("out of memory")]
    Memory,
    #[error("{path} has another kind")]
    WrongKind { path: FieldPath },
    #[error("{path} is not supported")]
    Unsupported { path: FieldPath },
}

impl From<Memory> for FieldRefused {
    ghost use Rattle.json_fields.specs.declared.refused.FieldRefused.TheVariants as refusal;

    ghost from_gives = { λ _ refused. refused ≡ refusal.Memory };

    fn from(_: Memory) -> Self {
        FieldRefused::Memory
    }
}
