//! A workflow to which facts are added one by one.

ghost use Rattle.wf_manifest.specs.Valid.{Valid as IsValid};

use crate::refused::ReplaysRefused;
use base_types::TryCopy;
use std::alloc::Global;
use tree_eval::evaluate;
use tree_incr::TreeState;
use tree_types::Facts;
use wf_check::Valid;

// Whether the kept tree, and all that it asks for, is the one that the manifest and the facts make anew.
fn is_as_anew(alloc: Global, state: &TreeState) -> Result<bool, ReplaysRefused> {
    let kept = state.tell()?;
    let anew = evaluate(state.manifest(), state.facts())?;
    let kept = format!(in alloc; "{kept:?}")?;
    let anew = format!(in alloc; "{anew:?}")?;
    Ok(kept.as_str() == anew.as_str())
}

/// The workflow behind these facts, added in their order; none where a tree on the way is another than the one made anew.
pub(crate) fn replayed(
    alloc: Global,
    valid: &Valid,
    facts: &Facts,
) -> Result<Option<TreeState>, ReplaysRefused>
    requires { IsValid valid.now }
{
    let mut state = TreeState::new(valid.copy()?)?;
    for fact in facts.as_slice() {
        state = state.add(fact.copy()?)?;
        if !is_as_anew(alloc, &state)? {
            return Ok(None);
        }
    }
    Ok(Some(state))
}
