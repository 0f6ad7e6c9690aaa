//! Why the cases are not run to their end.

use base_types::Memory;
use io_edge::ReadRefused;
use std::alloc::AllocError;
use std::io;
use thiserror::Error;

/// Why the cases are not run to their end.
#[derive(Debug, Drop, Error)]
pub(crate) enum CasesRefused {
    #[error("the input was not read to its end")]
    Input,
    #[error("the input is not JSON")]
    NotJson,
    #[error("the input is no list")]
    NoList,
    #[error("a case lacks its member {member}, or has it of another kind")]
    Member { member: &'static str },
    #[error("a case has a member of an unknown name")]
    UnknownMember,
    #[error("the output failed")]
    Output,
    #[error("out of memory")]
    Memory,
}

impl From<ReadRefused> for CasesRefused {
    fn from(_: ReadRefused) -> Self {
        CasesRefused::Input
    }
}

impl From<serde_json::Error> for CasesRefused {
    fn from(_: serde_json::Error) -> Self {
        CasesRefused::NotJson
    }
}

impl From<io::Error> for CasesRefused {
    fn from(_: io::Error) -> Self {
        CasesRefused::Output
    }
}

impl From<Memory> for CasesRefused {
    fn from(_: Memory) -> Self {
        CasesRefused::Memory
    }
}

impl From<AllocError> for CasesRefused {
    fn from(_: AllocError) -> Self {
        CasesRefused::Memory
    }
}
