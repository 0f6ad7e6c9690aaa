//! The phases of a node.

ghost use Rattle.std.specs.Prelude.{◌≡◌, Some};
ghost use Rattle.tree_types.specs.Phases as phases;

use std::fmt;

/// Where a node stands in its life (field reference, `NodeStatus.phase`).
#[derive(Clone, Copy, Debug, PartialEq, Eq)]
pub enum Phase {
    Pending,
    Running,
    Succeeded,
    Skipped,
    Failed,
    Error,
    Omitted,
}

impl Phase {
    /// The word of the phase.
    pub fn word(self) -> &'static str
        ensures { result.now ≡ phases.phase_text self }
    {
        match self {
            Phase::Pending => "Pending",
            Phase::Running => "Running",
            Phase::Succeeded => "Succeeded",
            Phase::Skipped => "Skipped",
            Phase::Failed => "Failed",
            Phase::Error => "Error",
            Phase::Omitted => "Omitted",
        }
    }
}

impl fmt::Display for Phase {
    ghost output = { λ phase. Some (phases.phase_text phase) };

    fn fmt<W: fmt::Write>(&self, f: &mut fmt::Formatter<W>) -> fmt::Result {
        f.write_str(self.word())
    }
}

/// The worse of two phases, for a node that stands above others.
pub fn worst(a: Phase, b: Phase) -> Phase
    ensures { result ≡ phases.worst a b }
{
    match (a, b) {
        (Phase::Error, _) | (_, Phase::Error) => Phase::Error,
        (Phase::Failed, _) | (_, Phase::Failed) => Phase::Failed,
        _ => Phase::Succeeded,
    }
}

/// Whether a node of this phase is over.
pub fn fulfilled(phase: Phase) -> bool
    ensures { result ≡ phases.fulfilled phase }
{
    !matches!(phase, Phase::Pending | Phase::Running)
}
