//! Why the cases are not gone through to their end.

use base_types::Memory;
use history_text::HistoryRefused;
use io_edge::ReadRefused;
use std::alloc::AllocError;
use std::io;
use thiserror::Error;
use tree_incr::TreeRefused;
use wf_bundle::BundleRefused;

/// Why the cases are not gone through to their end.
#[derive(Debug, Drop, Error)]
pub(crate) enum ReplaysRefused {
    #[error("the input was not read to its end")]
    Input,
    #[error("the input is not JSON")]
    NotJson,
    #[error("the input is no list")]
    NoList,
    #[error("a case lacks its member {member}, or has it of another kind")]
    Member { member: &'static str },
    #[error("the document of a case is refused")]
    Document,
    #[error("line {line} of a history is no entry")]
    History { line: u64 },
    #[error("a tree is too large")]
    TooLarge,
    #[error("the clock or the output failed")]
    System,
    #[error("out of memory")]
    Memory,
}

impl From<ReadRefused> for ReplaysRefused {
    fn from(_: ReadRefused) -> Self {
        ReplaysRefused::Input
    }
}

impl From<serde_json::Error> for ReplaysRefused {
    fn from(_: serde_json::Error) -> Self {
        ReplaysRefused::NotJson
    }
}

impl From<BundleRefused> for ReplaysRefused {
    fn from(refused: BundleRefused) -> Self {
        match refused {
            BundleRefused::Memory => ReplaysRefused::Memory,
            BundleRefused::Rule { .. } => ReplaysRefused::Document,
        }
    }
}

impl From<HistoryRefused> for ReplaysRefused {
    fn from(refused: HistoryRefused) -> Self {
        match refused {
            HistoryRefused::Bad { line } => ReplaysRefused::History { line },
            HistoryRefused::Memory => ReplaysRefused::Memory,
        }
    }
}

impl From<TreeRefused> for ReplaysRefused {
    fn from(refused: TreeRefused) -> Self {
        match refused {
            TreeRefused::TooLarge => ReplaysRefused::TooLarge,
            TreeRefused::Memory => ReplaysRefused::Memory,
        }
    }
}

impl From<io::Error> for ReplaysRefused {
    fn from(_: io::Error) -> Self {
        ReplaysRefused::System
    }
}

impl From<Memory> for ReplaysRefused {
    fn from(_: Memory) -> Self {
        ReplaysRefused::Memory
    }
}

impl From<AllocError> for ReplaysRefused {
    fn from(_: AllocError) -> Self {
        ReplaysRefused::Memory
    }
}
