//! What becomes of the tasks of a DAG that wait for one that ended, by the calls that stand below the DAG's node.

ghost use Rattle.std.specs.Prelude.{◌≡◌, ◌<◌, ◌^◌, Bool, length, map, IfOk, IsTrue, false};
ghost use Rattle.std.specs.List.{All, AllByRecursion};
ghost use Rattle.meaning.specs.declared.lines.Place.{Place};
ghost use Rattle.meaning.specs.Dags as dags;
ghost use Rattle.meaning.specs.Dags.{Standings};
ghost use Rattle.dag_plan.specs.Plans.{IsPlan};
ghost use Rattle.dag_board.specs.Boards.{stood};
ghost use Rattle.dag_stays.specs.Over.{StandsOver};
ghost use Rattle.dag_stays.specs.Following as spec;

use crate::sought::call_of_task;
use base_types::{List, Memory};
use dag_board::stand_existing;
use dag_plan::DagPlan;
use dag_template::{Stand, Verdict, judge_found, waiting};
use growth::laws::rounds_settle;
use std::alloc::Global;
use tree_state::State;
use tree_types::Phase;
use wf_manifest::Dag;

/// What becomes of a task.
#[derive(Clone, Copy, Debug)]
pub enum Following {
    /// A task that it names is not over, or it is neither a target nor an ancestor of one.
    Waits,
    /// Nothing holds it back.
    Freed,
    /// It is Omitted, with a branch phase that no call below the DAG tells.
    Omitted,
}

// How the task at a position stands as others see it, but for its branch phase, which no call below the node tells.
fn stand_below(state: &State, p: usize) -> Stand
    requires few { p < 2 ^ 32 }
    ensures { (doomed : Bool) (place : Place) (ss : Standings) → StandsOver doomed place ss state.now →
        result ≡ spec.seen (stood ss p) }
{
    match call_of_task(state, p as u32) {
        None => waiting(),
        Some((_, call)) => stand_existing(Phase::Succeeded, call),
    }
}

fn stands_below(alloc: Global, state: &State, places: &[usize]) -> Result<List<Stand>, Memory>
    requires few { All (λ p. p < 2 ^ 32) places.now }
    ensures long { IfOk result (λ found. length found ≡ length places.now) }
    ensures seen { (doomed : Bool) (place : Place) (ss : Standings) → StandsOver doomed place ss state.now →
        IfOk result (λ found. found ≡ map (λ p. spec.seen (stood ss p)) places.now) }
{
    let mut found = List::with_capacity(alloc, places.len())?;
    for i in 0..places.len() {
        found.push(stand_below(state, places[i]))?;
    }
    Ok(found)
}

/// What becomes of the task at position `k`, where the DAG's node stands over what its tasks made.
pub fn what_becomes(
    alloc: Global,
    dag: &Dag,
    plan: &DagPlan,
    state: &State,
    k: usize,
) -> Result<Following, Memory>
    requires plan { IsPlan dag.now plan.now }
    requires place { k < length dag.now.tasks }
    requires few { length dag.now.tasks < 2 ^ 32 }
    ensures { IfOk result (λ becomes. spec.TellsFollowing dag.now k state.now becomes) }
{
    rounds_settle();
    if !*plan.meant.get(k) {
        return Ok(Following::Waits);
    }
    let places = plan.rows.get(k).as_slice();
    let found = stands_below(alloc, state, places)?;
    let verdict = judge_found(
        alloc,
        dag.tasks.as_slice(),
        found.as_slice(),
        dag.tasks.get(k),
        places,
    )?;
    match verdict {
        Verdict::Waits => Ok(Following::Waits),
        Verdict::Holds => Ok(Following::Freed),
        Verdict::Denied(_) => Ok(Following::Omitted),
    }
}

// Whether the task at a position did not fail, whatever its branch: what it made is not over, or ended well.
fn is_spared(state: &State, p: usize) -> bool
    requires few { p < 2 ^ 32 }
    ensures { (doomed : Bool) (place : Place) (ss : Standings) → StandsOver doomed place ss state.now →
        result ≡ spec.is_spared (stood ss p) }
{
    match call_of_task(state, p as u32) {
        None => true,
        Some((_, call)) => {
            !call.is_finished() || matches!(call.phase(), Phase::Succeeded | Phase::Skipped)
        }
    }
}

// Whether no target of a DAG failed, as far as what the targets made tells it.
fn none_failed(plan: &DagPlan, state: &State) -> bool
    requires few { All (λ p. p < 2 ^ 32) plan.now.targets }
    ensures { IsTrue result → (doomed : Bool) (place : Place) (ss : Standings) → StandsOver doomed place ss state.now →
        AllByRecursion (λ p. IsTrue (spec.is_spared (stood ss p))) plan.now.targets }
{
    for i in 0..plan.targets.len() {
        if !is_spared(state, *plan.targets.get(i)) {
            return false;
        }
    }
    true
}

/// Whether a DAG is not doomed, as far as what its targets made tells it: each is not over or ended well.
pub fn is_undoomed(dag: &Dag, plan: &DagPlan, state: &State) -> bool
    requires plan { IsPlan dag.now plan.now }
    requires few { length dag.now.tasks < 2 ^ 32 }
    ensures { IsTrue result → (doomed : Bool) (place : Place) (ss : Standings) → StandsOver doomed place ss state.now →
        map (λ s. s.0) ss ≡ dag.now.tasks → spec.AreGood ss → dags.is_doomed dag.now ss ≡ false }
{
    !dag.fail_fast || none_failed(plan, state)
}
