//! What a step of a worker answers.

ghost use Rattle.std.specs.Prelude.{◌≡◌};
ghost use Rattle.reconcile_core.specs.declared.answers.ReconcileFault.TheVariants as faults;
ghost use Rattle.tree_state.specs.declared.refused.TreeRefused.TheVariants as trees;

use base_types::Memory;
use thiserror::Error;
use wf_object::TreeRefused;

/// How a job ended.
#[derive(Clone, Copy, Debug, PartialEq, Eq)]
pub enum Ended {
    /// Nothing is left to do by what was read.
    Done,
    /// The workflow, the lock book or the saves were not there.
    Absent,
}

/// What a step did.
#[derive(Clone, Copy, Debug, PartialEq, Eq)]
pub enum StepDone {
    /// Nothing: the worker has no job.
    Idle,
    /// One call, and the job goes on.
    Called,
    Ended(Ended),
}

/// Why a job was given up. The worker has it no more; its other jobs stay.
#[derive(Clone, Copy, Debug, PartialEq, Eq, Error)]
pub enum ReconcileFault {
    /// The object moved on from the version that was read.
    #[error("the object has version {found}, not {expected}")]
    Conflict { expected: u64, found: u64 },
    #[error("the store cannot be reached")]
    Fault,
    /// The next fact would make a tree of more than 10,000 nodes.
    #[error("the tree would be too large")]
    TooLarge,
    #[error("out of memory")]
    Memory,
}

impl From<Memory> for ReconcileFault {
    ghost from_gives = { λ _ e. e ≡ faults.Memory };

    fn from(_: Memory) -> Self {
        ReconcileFault::Memory
    }
}

impl From<TreeRefused> for ReconcileFault {
    ghost use Rattle.reconcile_core.specs.Answers.{fault_of};

    ghost from_gives = { λ refused e. e ≡ fault_of refused };

    fn from(refused: TreeRefused) -> Self {
        match refused {
            TreeRefused::TooLarge => ReconcileFault::TooLarge,
            TreeRefused::Memory => ReconcileFault::Memory,
        }
    }
}
