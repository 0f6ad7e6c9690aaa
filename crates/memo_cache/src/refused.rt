//! Why outputs are not saved.

ghost use Rattle.std.specs.Prelude.{◌≡◌};
ghost use Rattle.memo_cache.specs.declared.refused.SaveRefused.TheVariants as refused;

use base_types as base;
use thiserror::Error;

/// Why outputs are not saved.
#[derive(Clone, Copy, Debug, PartialEq, Eq, Error)]
pub enum SaveRefused {
    /// The writer has a save already.
    #[error("the writer has a save already")]
    Saved,
    #[error("out of memory")]
    Memory,
}

impl From<base::Memory> for SaveRefused {
    ghost from_gives = { λ _ e. e ≡ refused.Memory };

    fn from(_: base::Memory) -> Self {
        SaveRefused::Memory
    }
}
