//! Why a text says nothing.

ghost use Rattle.std.specs.Prelude.{◌≡◌};
ghost use Rattle.call_texts.specs.declared.halt.Halt.TheVariants as halt;

use base_types as base;
use thiserror::Error;
use tree_types::Note;

/// Why the texts of a call say nothing.
#[derive(Debug, Drop, Error)]
pub enum Halt {
    /// The first fault, as it is noted at the node that it makes Error.
    #[error("a text is at fault")]
    Fault(Note),
    #[error("out of memory")]
    Memory,
}

impl From<base::Memory> for Halt {
    ghost from_gives = { λ _ e. e ≡ halt.Memory };

    fn from(_: base::Memory) -> Self {
        Halt::Memory
    }
}
