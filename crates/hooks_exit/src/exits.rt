//! Exit hooks, and the phase of a workflow with an exit handler.

ghost use Rattle.std.specs.Prelude.{◌≡◌};
ghost use Rattle.meaning.specs.Calls as calls;
ghost use Rattle.hooks_exit.specs.Exits as exits;

use tree_types::{Phase, fulfilled};

/// Whether the exit hook of a step or task runs, whose node has this phase (Argo, "Lifecycle-Hook").
pub fn hook_runs(phase: Phase) -> bool
    ensures { result ≡ calls.hook_runs phase }
{
    matches!(phase, Phase::Succeeded | Phase::Failed | Phase::Error)
}

/// The phase of a workflow that is started, and whose own lock, if it has one, is granted: by the phase of its
/// entrypoint's node, and of its exit handler's, where there is one (Argo, "Exit handlers").
pub fn workflow_phase(main: Phase, exit: Option<Phase>) -> Phase
    ensures { result ≡ exits.phase_of main exit }
{
    if !are_over(main, exit) {
        return Phase::Running;
    }
    match (main, exit) {
        (Phase::Succeeded, Some(exit)) => exit,
        _ => main,
    }
}

fn are_over(main: Phase, exit: Option<Phase>) -> bool
    ensures { result ≡ exits.are_over main exit }
{
    match exit {
        Some(exit) => fulfilled(main) && fulfilled(exit),
        None => fulfilled(main),
    }
}
