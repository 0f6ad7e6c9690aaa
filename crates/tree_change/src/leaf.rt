//! What is asked of one node and one selector on the way down.

ghost use Rattle.std.specs.Prelude.{◌≡◌, ◌∷◌, ◌&&◌, IfOk, IfSome, IsTrue, None, false, is_some, option_copied, slice_get};
ghost use Rattle.meaning.specs.Calls as calls;
ghost use Rattle.meaning.specs.Lines.{row_in, all_finished};
ghost use Rattle.meaning.specs.Pods.{pod_made, retry_made};
ghost use Rattle.wf_manifest.specs.Valid.{limit_fits};
ghost use Rattle.growth.specs.Ticks.{place_of};
ghost use Rattle.tree_change.specs.Entered.{IsRunning};
ghost use Rattle.tree_change.specs.Open.{unlocked};
ghost use Rattle.tree_change.specs.Changes.{IfGiven};

use base_types::{List, Memory, TryCopy};
use hooks_exit::hook_runs;
use leaf_states::{pod, retried};
use meaning::Place;
use recorded::Recorded;
use tree_state::{Room, State, TreeRefused};
use tree_types::{Node, Phase, Sel};
use wf_manifest::{Call, OutputDecls, Retry, Template};

/// The first selector of a path, and those behind it.
pub fn split(path: &[Sel]) -> Option<(Sel, &[Sel])>
    ensures { IfSome result (λ parts. path.now ≡ parts.0 ∷ parts.1.now) }
{
    match path {
        [] => None,
        [first, others @ ..] => Some((*first, others)),
    }
}

/// The item of a list at a position.
pub fn item_at<T>(list: &List<T>, position: usize) -> Option<&T>
    ensures { option_copied result ≡ slice_get list.now position }
{
    list.as_slice().get(position)
}

/// Whether the node of a state runs.
pub fn is_running(state: &State) -> bool
    ensures { IsTrue result → IsRunning state.now }
{
    matches!(state.phase(), Phase::Running)
}

/// Whether some call below a node is not finished, and some was not before it changed.
pub fn runs_on(old: &State, new: &State) -> bool
    ensures old { IsTrue result → all_finished (row_in old.now.parts) ≡ false }
    ensures new { IsTrue result → all_finished (row_in new.now.parts) ≡ false }
{
    !old.all_finished() && !new.all_finished()
}

/// Whether an exit hook of a call runs behind a node in this phase.
pub fn has_hook(call: &Call, phase: Phase) -> bool
    ensures { result ≡ (is_some call.now.exit && calls.hook_runs phase) }
{
    match &call.exit {
        None => false,
        Some(_) => hook_runs(phase),
    }
}

/// Whether a template has no cache.
pub fn is_uncached(template: &Template) -> bool
    ensures { IsTrue result → template.now.memoize ≡ None }
{
    template.memoize.is_none()
}

/// The place that a node stands at.
pub fn place_of(node: &Node) -> Result<Place, Memory>
    ensures { IfOk result (λ place. place ≡ place_of node.now) }
{
    Ok(Place {
        sels: node.path.sels.copy()?,
        name: node.name.copy()?,
        depth: node.depth,
    })
}

/// Whether the lock of a template, if it has one, is granted to a place.
pub fn is_unlocked<R: Recorded>(recorded: &R, place: &Place, template: &Template) -> bool
    ensures { result ≡ unlocked ((R.answers recorded.now).granted place.now.sels) template.now.lock }
{
    match &template.lock {
        None => true,
        Some(_) => recorded.granted(&place.sels),
    }
}

/// A pod of a template that declares these outputs.
pub fn pod_state<R: Recorded>(
    recorded: &R,
    place: Place,
    declared: &OutputDecls,
) -> Result<Option<State>, Memory>
    ensures { IfGiven result (λ state. state ≡ pod_made (R.answers recorded.now) place declared.now) }
{
    match pod(recorded, place, declared, &mut Room::new()) {
        Ok(state) => Ok(Some(state)),
        Err(TreeRefused::TooLarge) => Ok(None),
        Err(TreeRefused::Memory) => Err(Memory),
    }
}

/// A pod with a retry, of a template that declares these outputs.
pub fn retried_state<R: Recorded>(
    recorded: &R,
    place: Place,
    declared: &OutputDecls,
    retry: &Retry,
) -> Result<Option<State>, Memory>
    requires { IsTrue (limit_fits retry.now.limit) }
    ensures { IfGiven result (λ state. state ≡ retry_made (R.answers recorded.now) place declared.now retry.now) }
{
    if place.depth == u32::MAX {
        return Ok(None);
    }
    match retried(recorded, place, declared, retry, &mut Room::new()) {
        Ok(state) => Ok(Some(state)),
        Err(TreeRefused::TooLarge) => Ok(None),
        Err(TreeRefused::Memory) => Err(Memory),
    }
}
