//! A task of a DAG that begins now and sees no tag of another: where no other task sees what it makes, all else is shared.

ghost use Rattle.std.specs.Prelude.{◌≡◌, ◌+◌, ◌*◌, ◌<◌, ◌++◌, ◌∷◌, List as Seq, IsTrue, IfOk, codes};
ghost use Rattle.tree_types.specs.declared.path.Sel.TheVariants as sels;
ghost use Rattle.wf_manifest.specs.declared.templates.OutputDecl.{OutputDecl};
ghost use Rattle.meaning.specs.Dags as dags;
ghost use Rattle.tree_walk.specs.Index.{IsReady};
ghost use Rattle.tree_walk.specs.Walkable.{IsWalkableDag};
ghost use Rattle.dag_plan.specs.Plans.{IsPlan};
ghost use Rattle.tree_change.specs.Changes.{IfGiven};
ghost use Rattle.tree_change.specs.Inside.Unseeing.{SeesNone};
ghost use Rattle.tree_change.specs.Inside.Resuming.{Resumes, calls_now, calls_before};

use crate::again::Again;
use crate::leaf::item_at;
use base_types::{Memory, TryCopy};
use call_nodes::task_place;
use dag_plan::DagPlan;
use dag_stays::{call_of_task, is_unseen};
use meaning::Place;
use mentions::call_asks_for;
use recorded::Recorded;
use scopes::Scope;
use tree_state::{Room, State, TreeRefused};
use tree_types::{Path, Sel};
use tree_walk::{Listed, begins};
use wf_manifest::{Dag, Task};

// Whether a task sees no tag of those that it waits for: it names none, or no text of its call asks for such a tag.
pub(crate) fn sees_none(dag: &Dag, task: &Task) -> Result<bool, Memory>
    ensures { IfOk result (λ sees. IsTrue sees → SeesNone dag.now.tasks task.now) }
{
    if task.depends.is_none() && task.dependencies.is_none() {
        return Ok(true);
    }
    let name = &task.call.name;
    Ok(!call_asks_for(name.allocator(), "tasks.", &task.call)?)
}

impl<R: Recorded> Again<'_, R> {
    // What a task makes as if there had been nothing. None where that has too many nodes for a tree.
    pub(crate) fn anew(
        &self,
        at: Place,
        scope: &Scope,
        task: &Task,
        left: u32,
    ) -> Result<Option<State>, Memory>
        requires ready { IsReady self.now.walk.manifest.now self.now.walk.positions.now }
        requires shallow { at.depth + 5 * left + 5 < 1000 }
        ensures { IfGiven result (λ z.
            z ≡ calls_now R.answers self.now left (codes "tasks.") at scope.now task.now.call) }
    {
        let mut room = Room::new();
        match self
            .walk
            .call(Listed::Tasks, at, scope, &task.call, left, &mut room)
        {
            Ok(state) => Ok(Some(state)),
            Err(TreeRefused::TooLarge) => Ok(None),
            Err(TreeRefused::Memory) => Err(Memory),
        }
    }

    // A DAG whose task `j` begins now. None where it stood before or sees others, or where others may see it.
    pub(crate) fn begun_alone(
        &self,
        place: &Place,
        scope: &Scope,
        dag: &Dag,
        plan: &DagPlan,
        old: &State,
        j: u32,
        rest: &[Sel],
        left: u32,
    ) -> Result<Option<State>, Memory>
        requires resumes { Resumes R.answers self.now (place.now.sels ++ sels.Task j ∷ rest.now) }
        requires walkable { IsWalkableDag dag.now }
        requires plan { IsPlan dag.now plan.now }
        requires shallow { place.now.depth + 5 * left + 8 < 1000 }
        ensures { (declared : Seq OutputDecl) →
            old.now ≡ dags.dag_made (R.answers self.now.before.now) (calls_before R.answers self.now left) place.now scope.now declared dag.now →
            IfGiven result (λ z. z ≡ dags.dag_made (R.answers self.now.walk.recorded.now) (calls_now R.answers self.now left) place.now scope.now declared dag.now) }
    {
        let Some(task) = item_at(&dag.tasks, j as usize) else {
            return Ok(None);
        };
        if call_of_task(old, j).is_some() {
            return Ok(None);
        }
        let sees_none = sees_none(dag, task)?;
        if !sees_none {
            return Ok(None);
        }
        let at = task_place(place, j, task)?;
        if !begins(self.walk.recorded, dag, &at) {
            return Ok(None);
        }
        let path = Path {
            sels: at.sels.copy()?,
        };
        let Some(new) = self.anew(at, scope, task, left)? else {
            return Ok(None);
        };
        if !is_unseen(dag, plan, task, j as usize, &new) {
            return Ok(None);
        }
        let Some(state) = old.with_begun(&path, new)? else {
            return Ok(None);
        };
        if state.all_finished() {
            return Ok(None);
        }
        Ok(Some(state))
    }
}
