//! The law of a workflow's phase.

ghost use Rattle.hooks_exit.specs.Exits.{PhaseIsMeant};

/// What `workflow_phase` answers is the phase that the meaning gives a workflow, by the phases of its two top nodes.
pub fn phase_is_meant()
    ensures { PhaseIsMeant }
{}
