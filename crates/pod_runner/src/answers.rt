//! What a step of a runner answers.

ghost use Rattle.std.specs.Prelude.{◌≡◌};
ghost use Rattle.pod_runner.specs.declared.answers.RunFault.TheVariants as faults;

use base_types::Memory;
use thiserror::Error;

/// What a step did.
#[derive(Clone, Copy, Debug, PartialEq, Eq)]
pub enum RunDone {
    /// Nothing: the runner has no job.
    Idle,
    /// The pod was read, and the job goes on.
    Called,
    /// The outcome was written.
    Finished,
    /// The pod was not there.
    Absent,
    /// The document plans no outcome for the pod.
    NoOutcome,
    /// The tick at which the pod may end is above the one at which it was read.
    NotDue { due: u64 },
    /// The pod that was read has an outcome.
    AlreadyFinished,
}

/// Why a job was given up. The runner has it no more; its other jobs stay.
#[derive(Clone, Copy, Debug, PartialEq, Eq, Error)]
pub enum RunFault {
    /// The pod moved on from the version that was read.
    #[error("the pod has version {found}, not {expected}")]
    Conflict { expected: u64, found: u64 },
    #[error("the store cannot be reached")]
    Fault,
    #[error("out of memory")]
    Memory,
}

impl From<Memory> for RunFault {
    ghost from_gives = { λ _ e. e ≡ faults.Memory };

    fn from(_: Memory) -> Self {
        RunFault::Memory
    }
}
