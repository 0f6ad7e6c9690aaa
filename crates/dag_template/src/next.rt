//! What follows the tasks of a DAG.

ghost use Rattle.std.specs.Prelude.{◌≡◌, ◌<◌, ◌^◌, length, IfOk, IsTrue};
ghost use Rattle.std.specs.List.{list_any, list_all};
ghost use Rattle.tree_types.specs.Phases.{worst_of};
ghost use Rattle.base_types.specs.Names.{all_differ};
ghost use Rattle.wf_manifest.specs.declared.templates.Body.TheVariants as body;
ghost use Rattle.wf_manifest.specs.Valid.{task_names, tasks_are_there, HasRank};
ghost use Rattle.dag_plan.specs.Plans.{IsPlan};
ghost use Rattle.dag_template.specs.Step as steps;
ghost use Rattle.dag_template.specs.Following as spec;

use crate::in_order::stands_in_order;
use crate::stands::{Stand, stands_at};
use crate::{DagStep, Places, TaskState};
use base_types::{List, Memory};
use dag_plan::DagPlan;
use growth::laws::rounds_settle;
use std::alloc::Global;
use tree_types::{Phase, worst};
use wf_manifest::Dag;

// What is asked of how a task stands.
#[derive(Clone, Copy, Debug)]
pub(crate) enum Asked {
    Existing,
    Denied,
    Ready,
}

fn answers(asked: Asked, stand: &Stand) -> bool
    ensures { result ≡ spec.answers asked stand.now }
{
    match asked {
        Asked::Existing => stand.existing,
        Asked::Denied => stand.denied,
        Asked::Ready => stand.ready,
    }
}

fn places(alloc: Global, asked: Asked, stands: &[Stand]) -> Result<Places, Memory>
    requires few { length stands.now < 2 ^ 32 }
    ensures { IfOk result (λ found. found ≡ spec.places_seen 0 asked stands.now) }
{
    let mut found = List::new(alloc);
    for i in 0..stands.len() {
        if answers(asked, &stands[i]) {
            found.push(i as u32)?;
        }
    }
    Ok(found)
}

fn has_failed(stand: &Stand) -> bool
    ensures { result ≡ spec.has_failed stand.now }
{
    stand.existing && stand.over && matches!(stand.branch, Phase::Failed | Phase::Error)
}

fn is_one_failed(targets: &[Stand]) -> bool
    ensures { result ≡ list_any spec.has_failed targets.now }
{
    for i in 0..targets.len() {
        if has_failed(&targets[i]) {
            return true;
        }
    }
    false
}

fn is_one_ready(stands: &[Stand]) -> bool
    ensures { result ≡ list_any (λ s. s.ready) stands.now }
{
    for i in 0..stands.len() {
        if stands[i].ready {
            return true;
        }
    }
    false
}

fn are_at_rest(stands: &[Stand]) -> bool
    ensures { result ≡ list_all spec.is_at_rest stands.now }
{
    for i in 0..stands.len() {
        if stands[i].existing && !stands[i].over {
            return false;
        }
    }
    true
}

fn worst_target(targets: &[Stand]) -> Phase
    ensures { result ≡ spec.worst_target targets.now }
{
    let mut phase = Phase::Succeeded;
    let mut left = targets.len();
    while left > 0 {
        left -= 1;
        if targets[left].existing {
            phase = worst(targets[left].branch, phase);
        }
    }
    phase
}

/// Whether a DAG is doomed whose targets stand so.
pub fn is_doomed(fail_fast: bool, targets: &[Stand]) -> bool
    ensures { result ≡ spec.is_doomed fail_fast targets.now }
{
    fail_fast && is_one_failed(targets)
}

/// The phase of a DAG that is over, whose tasks and targets stand so.
pub fn phase_seen(doomed: bool, stands: &[Stand], targets: &[Stand]) -> Option<Phase>
    ensures { result ≡ spec.phase_seen doomed stands.now targets.now }
{
    if are_at_rest(stands) && (doomed || !is_one_ready(stands)) {
        Some(worst_target(targets))
    } else {
        None
    }
}

fn step_of(
    alloc: Global,
    fail_fast: bool,
    stands: &[Stand],
    targets: &[Stand],
) -> Result<DagStep, Memory>
    requires few { length stands.now < 2 ^ 32 }
    ensures { IfOk result (λ step. step ≡ spec.step_seen fail_fast stands.now targets.now) }
{
    let doomed = is_doomed(fail_fast, targets);
    let begin = if doomed {
        List::new(alloc)
    } else {
        places(alloc, Asked::Ready, stands)?
    };
    Ok(DagStep {
        exist: places(alloc, Asked::Existing, stands)?,
        omit: places(alloc, Asked::Denied, stands)?,
        begin,
        phase: phase_seen(doomed, stands, targets),
    })
}

/// What follows the tasks of a DAG by their states, gone through in the order of its plan, which does not change with the
/// states.
pub fn next_in_order(
    alloc: Global,
    dag: &Dag,
    plan: &DagPlan,
    tasks: &[TaskState],
) -> Result<DagStep, Memory>
    requires plan { IsPlan dag.now plan.now }
    requires each { length tasks.now ≡ length dag.now.tasks }
    requires few { length dag.now.tasks < 2 ^ 32 }
    ensures { IfOk result (λ step. step ≡ steps.step dag.now tasks.now) }
{
    rounds_settle();
    let stands = stands_in_order(alloc, dag, plan, tasks)?;
    let found = stands_at(alloc, stands.as_slice(), plan.targets.as_slice())?;
    step_of(alloc, dag.fail_fast, stands.as_slice(), found.as_slice())
}

/// What follows the tasks of a DAG by their states.
pub fn dag_next(alloc: Global, dag: &Dag, tasks: &[TaskState]) -> Result<DagStep, Memory>
    requires ranked { HasRank dag.now.tasks }
    requires differ { IsTrue (all_differ (task_names dag.now)) }
    requires there { IsTrue (tasks_are_there (body.Dag dag.now)) }
    requires each { length tasks.now ≡ length dag.now.tasks }
    requires few { length dag.now.tasks < 2 ^ 32 }
    ensures { IfOk result (λ step. step ≡ steps.step dag.now tasks.now) }
{
    let plan = DagPlan::new(alloc, dag)?;
    next_in_order(alloc, dag, &plan, tasks)
}
