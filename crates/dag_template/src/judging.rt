//! Whether what a task waits for holds.

ghost use Rattle.std.specs.Prelude.{◌≡◌, ◌<◌, length, map, IfOk};
ghost use Rattle.std.specs.List.{All};
ghost use Rattle.depends_expr.specs.Truth.{names_of};
ghost use Rattle.task_order.specs.Orders.{waited};
ghost use Rattle.dag_plan.specs.Plans.{AreAt};
ghost use Rattle.dag_template.specs.Stands as spec;

use crate::stands::{Stand, are_over, results_of, stands_at, worst_branch};
use base_types::Memory;
use depends_expr::{Depends, TaskResult, eval};
use std::alloc::Global;
use tree_types::Phase;
use wf_manifest::{ContinueOn, Task};

/// What becomes of a task by what it waits for.
#[derive(Clone, Copy, Debug)]
pub enum Verdict {
    /// A task that it names is not over.
    Waits,
    /// It may begin.
    Holds,
    /// It is Omitted, with this branch phase.
    Denied(Phase),
}

// By what a task's `depends` says, where the tasks that it names stand so.
fn judge_depends(alloc: Global, found: &[Stand], depends: &Depends) -> Result<Verdict, Memory>
    requires each { length found.now ≡ length (names_of depends.now) }
    ensures { (of : spec.Sight) → map of (names_of depends.now) ≡ found.now →
        IfOk result (λ verdict. verdict ≡ spec.verdict_named of depends.now) }
{
    if !are_over(found) {
        return Ok(Verdict::Waits);
    }
    let results = results_of(alloc, found)?;
    if eval(depends, results.as_slice()) {
        Ok(Verdict::Holds)
    } else {
        Ok(Verdict::Denied(worst_branch(found)))
    }
}

pub(crate) fn covers(continue_on: Option<ContinueOn>) -> ContinueOn
    ensures { result ≡ spec.covers continue_on }
{
    match continue_on {
        Some(covered) => covered,
        None => ContinueOn {
            failed: false,
            error: false,
        },
    }
}

fn is_met(covered: ContinueOn, task: TaskResult) -> bool
    ensures { result ≡ spec.is_met covered task }
{
    task.succeeded
        || task.skipped
        || (covered.failed && task.failed)
        || (covered.error && task.errored)
}

// The failures of the task at a position that its own `continueOn` covers.
fn covers_at(tasks: &[Task], place: usize) -> ContinueOn
    requires { place < length tasks.now }
    ensures { result ≡ spec.covers_at tasks.now place }
{
    covers(tasks[place].call.continue_on)
}

// Whether each dependency is met.
fn are_met(tasks: &[Task], places: &[usize], found: &[Stand]) -> bool
    requires within { All (λ p. p < length tasks.now) places.now }
    requires each { length places.now ≡ length found.now }
    ensures { result ≡ spec.are_met_at tasks.now places.now found.now }
{
    for i in 0..places.len() {
        if !is_met(covers_at(tasks, places[i]), found[i].result) {
            return false;
        }
    }
    true
}

// By a task's `dependencies`, where those stand so.
fn judge_dependencies(tasks: &[Task], places: &[usize], found: &[Stand]) -> Verdict
    requires within { All (λ p. p < length tasks.now) places.now }
    requires each { length places.now ≡ length found.now }
    ensures { result ≡ spec.verdict_by found.now (spec.are_met_at tasks.now places.now found.now) }
{
    if !are_over(found) {
        Verdict::Waits
    } else if are_met(tasks, places, found) {
        Verdict::Holds
    } else {
        Verdict::Denied(worst_branch(found))
    }
}

/// What becomes of a task where those that it waits for stand so, in the order in which it names them. `places` are their
/// positions.
pub fn judge_found(
    alloc: Global,
    tasks: &[Task],
    found: &[Stand],
    task: &Task,
    places: &[usize],
) -> Result<Verdict, Memory>
    requires each { length places.now ≡ length found.now }
    requires places { AreAt tasks.now (waited task.now) places.now }
    ensures { (of : spec.Sight) → map of (waited task.now) ≡ found.now →
        IfOk result (λ verdict. verdict ≡ spec.verdict tasks.now of task.now) }
{
    match (&task.depends, &task.dependencies) {
        (Some(depends), _) => judge_depends(alloc, found, depends),
        (None, Some(_)) => Ok(judge_dependencies(tasks, places, found)),
        (None, None) => Ok(Verdict::Holds),
    }
}

/// What becomes of a task, by how the tasks stand. `places` are the positions of those that it waits for.
pub fn judge(
    alloc: Global,
    tasks: &[Task],
    stands: &[Stand],
    task: &Task,
    places: &[usize],
) -> Result<Verdict, Memory>
    requires each { length tasks.now ≡ length stands.now }
    requires places { AreAt tasks.now (waited task.now) places.now }
    ensures { IfOk result (λ verdict.
        verdict ≡ spec.verdict tasks.now (spec.stand_of tasks.now stands.now) task.now) }
{
    let found = stands_at(alloc, stands, places)?;
    judge_found(alloc, tasks, found.as_slice(), task, places)
}
