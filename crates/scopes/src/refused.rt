//! Why a text cannot be substituted.

ghost use Rattle.std.specs.Prelude.{◌≡◌};
ghost use Rattle.scopes.specs.declared.refused.SubstRefused.TheVariants as refused;

use base_types::{Memory, Text};
use thiserror::Error;

/// Why a text with tags says nothing in a scope.
#[derive(Debug, Drop, Error)]
pub enum SubstRefused {
    /// The leftmost tag without a value.
    #[error("the tag {tag} has no value")]
    Unresolved { tag: Text },
    #[error("out of memory")]
    Memory,
}

impl From<Memory> for SubstRefused {
    ghost from_gives = { λ _ e. e ≡ refused.Memory };

    fn from(_: Memory) -> Self {
        SubstRefused::Memory
    }
}
