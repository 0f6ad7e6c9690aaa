//! Why bytes are no history.

ghost use Rattle.std.specs.Prelude.{◌≡◌};
ghost use Rattle.history_text.specs.declared.refused.HistoryRefused.TheVariants as refused;

use base_types::Memory;
use thiserror::Error;

/// Why bytes were not read as a history.
#[derive(Clone, Copy, Debug, PartialEq, Eq, Error)]
pub enum HistoryRefused {
    /// The first line, counted from 1, that is no entry's. A last line without its line feed is none.
    #[error("line {line} is no entry")]
    Bad { line: u64 },
    #[error("out of memory")]
    Memory,
}

impl From<Memory> for HistoryRefused {
    ghost from_gives = { λ _ made. made ≡ refused.Memory };

    fn from(_: Memory) -> HistoryRefused {
        HistoryRefused::Memory
    }
}
