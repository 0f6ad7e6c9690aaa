//! What it costs to add all facts one by one, and to make the last tree once.

ghost use Rattle.std.specs.Prelude.{All};
ghost use Rattle.wf_manifest.specs.Valid.{Valid as IsValid};

use crate::case::Case;
use crate::journal::facts_of;
use crate::refused::ReplaysRefused;
use base_types::{List, TryCopy};
use std::alloc::Global;
use std::time::CpuClock;
use tree_eval::evaluate;
use tree_incr::TreeState;
use tree_types::Facts;
use wf_bundle::Document;
use wf_check::Valid;

// The processor time of this thread in microseconds.
fn now<R: CpuClock>(rt: &R) -> Result<u128, ReplaysRefused> {
    Ok(rt.thread_cpu_time()?.as_micros())
}

// All states of a workflow while these facts are added, each kept.
fn all_states(
    alloc: Global,
    valid: &Valid,
    facts: &Facts,
) -> Result<List<TreeState>, ReplaysRefused>
    requires { IsValid valid.now }
{
    let mut states = List::new(alloc);
    let mut state = TreeState::new(valid.copy()?)?;
    for fact in facts.as_slice() {
        let next = state.add(fact.copy()?)?;
        states.push(state)?;
        state = next;
    }
    states.push(state)?;
    Ok(states)
}

// Prints what a workflow costs.
fn tell_one(rt: &HostRuntime, valid: &Valid, facts: &Facts) -> Result<(), ReplaysRefused>
    requires { IsValid valid.now }
{
    let begin = now(rt)?;
    let states = all_states(rt.alloc(), valid, facts)?;
    let kept = now(rt)?;
    let Some(last) = states.as_slice().last() else {
        return Ok(());
    };
    let anew = evaluate(last.manifest(), last.facts())?;
    let end = now(rt)?;
    let nodes = anew.tree.nodes.len();
    let all = kept.saturating_sub(begin);
    let one = end.saturating_sub(kept);
    let name = valid.manifest().name.as_str();
    let count = facts.len();
    println!(rt; "{name}: {nodes} nodes, {count} facts in {all} us, once in {one} us")?;
    Ok(())
}

/// Prints what the workflows of a case cost.
pub(crate) fn tell(rt: &HostRuntime, case: &Case, document: &Document) -> Result<(), ReplaysRefused>
    requires { All IsValid document.now.workflows }
{
    for valid in document.workflows.as_slice() {
        let facts = facts_of(rt.alloc(), &case.entries, &valid.manifest().name)?;
        tell_one(rt, valid, &facts)?;
    }
    Ok(())
}
