//! The phase of a suspended node, and which resumptions reach it.

ghost use Rattle.std.specs.Prelude.{◌≡◌};
ghost use Rattle.suspend_resume.specs.Suspension as suspension;

use tree_types::Phase;

/// The phase of a suspended node, which has each output that its template declares (Argo, "Suspending"): `due` says
/// whether its timer was due, `resumed` whether it was resumed.
pub fn suspend_phase(due: bool, resumed: bool) -> Phase
    ensures { suspension.IsPhase due resumed result }
{
    if due || resumed {
        Phase::Succeeded
    } else {
        Phase::Running
    }
}

/// Whether a command that resumes at the tick `at` reaches a node that was armed at the tick `armed`, once the clock reads
/// `clock`.
pub fn resumes(armed: u64, at: u64, clock: u64) -> bool
    ensures { result ≡ suspension.reaches armed at clock }
{
    armed <= at && at <= clock
}
