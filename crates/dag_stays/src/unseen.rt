//! A task that ends where no other task sees it.

ghost use Rattle.std.specs.Prelude.{◌≡◌, ◌↔◌, ◌&&◌, not, IsTrue, Some, slice_get};
ghost use Rattle.wf_manifest.specs.declared.calls.Task.{Task as OneTask};
ghost use Rattle.meaning.specs.Steps as steps;
ghost use Rattle.meaning.specs.Dags as dags;
ghost use Rattle.dag_plan.specs.Plans.{IsPlan};
ghost use Rattle.dag_stays.specs.Unseen.{IsUnseen};

use call_nodes::covered;
use dag_plan::DagPlan;
use tree_state::State;
use tree_types::Phase;
use wf_manifest::{Dag, Task};

// Whether no task waits for the one at position `j`.
fn is_last(dag: &Dag, plan: &DagPlan, task: &Task, j: usize) -> bool
    requires plan { IsPlan dag.now plan.now }
    requires task { slice_get dag.now.tasks j ≡ Some task.now }
    ensures { result ≡ dags.is_last dag.now.tasks task.now }
{
    plan.behind.get(j).as_slice().is_empty()
}

fn is_bad(phase: Phase) -> bool
    ensures { result ≡ dags.is_bad phase }
{
    matches!(phase, Phase::Failed | Phase::Error)
}

/// Whether a task that ended with this does not doom its DAG.
pub fn spares(dag: &Dag, task: &Task, new: &State) -> bool
    ensures { result ≡ not (dag.now.fail_fast && dags.is_bad (steps.covered task.now.call.continue_on new.now.own.node.phase)) }
{
    !(dag.fail_fast && is_bad(covered(&task.call.continue_on, new.phase())))
}

/// Whether the task at position `j` of a DAG, which ran, makes what no other task sees: it runs on; or it ends, no task waits for
/// it, and it does not doom the DAG.
pub fn is_unseen(dag: &Dag, plan: &DagPlan, task: &Task, j: usize, new: &State) -> bool
    requires plan { IsPlan dag.now plan.now }
    requires task { slice_get dag.now.tasks j ≡ Some task.now }
    ensures { IsTrue result ↔ IsUnseen dag.now task.now new.now }
{
    if !new.is_finished() {
        return true;
    }
    if !spares(dag, task, new) {
        return false;
    }
    is_last(dag, plan, task, j)
}
