//! How all tasks of a DAG stand.

ghost use Rattle.std.specs.Prelude.{◌≡◌, ◌<◌, length, replicate, IfOk, Some, slice_get};
ghost use Rattle.wf_manifest.specs.declared.calls.Task.{Task as OneTask};
ghost use Rattle.meaning.specs.Dags.{is_meant};
ghost use Rattle.dag_plan.specs.Plans.{IsPlan};
ghost use Rattle.dag_template.specs.Stands.{waits, stand_of, stand_if};
ghost use Rattle.dag_template.specs.Order.{sights};

use crate::TaskState;
use crate::standing::stand;
use crate::stands::{Stand, waiting};
use base_types::Memory;
use dag_plan::DagPlan;
use growth::laws::rounds_settle;
use std::alloc::Global;
use wf_manifest::Dag;

fn all_waiting(alloc: Global, count: usize) -> Result<Vec<Stand>, Memory>
    ensures { IfOk result (λ stands. stands.items ≡ replicate count waits) }
{
    let mut stands = Vec::with_capacity(alloc, count)?;
    for _ in 0..count {
        stands.push(waiting())?;
    }
    Ok(stands)
}

// How the task at a position stands, by how those stand that it waits for.
fn stand_planned(
    alloc: Global,
    dag: &Dag,
    plan: &DagPlan,
    stands: &[Stand],
    state: TaskState,
    place: usize,
) -> Result<Stand, Memory>
    requires plan { IsPlan dag.now plan.now }
    requires each { length dag.now.tasks ≡ length stands.now }
    requires place { place < length dag.now.tasks }
    ensures { IfOk result (λ found. (t : OneTask) → slice_get dag.now.tasks place ≡ Some t →
        found ≡ stand_if dag.now (stand_of dag.now.tasks stands.now) t state (is_meant dag.now t)) }
{
    stand(
        alloc,
        dag,
        stands,
        dag.tasks.get(place),
        plan.rows.get(place).as_slice(),
        state,
        *plan.meant.get(place),
    )
}

/// How the tasks of a DAG stand by their states, gone through in the order of its plan.
pub(crate) fn stands_in_order(
    alloc: Global,
    dag: &Dag,
    plan: &DagPlan,
    tasks: &[TaskState],
) -> Result<Vec<Stand>, Memory>
    requires plan { IsPlan dag.now plan.now }
    requires each { length tasks.now ≡ length dag.now.tasks }
    ensures { IfOk result (λ stands. stands.items ≡ sights dag.now tasks.now) }
{
    rounds_settle();
    let mut stands = all_waiting(alloc, dag.tasks.len())?;
    for k in 0..plan.order.len() {
        let place = *plan.order.get(k);
        let found = stand_planned(alloc, dag, plan, stands.as_slice(), tasks[place], place)?;
        stands[place] = found;
    }
    Ok(stands)
}
