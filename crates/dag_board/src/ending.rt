//! What a DAG makes whose tasks were all gone through.

ghost use Rattle.std.specs.Prelude.{◌≡◌, ◌+◌, ◌<◌, ◌^◌, ◌&&◌, not, ℕ, length, IfOk, OnOk, IsTrue, None, Option as Maybe, get_or, slice_get, Some};
ghost use Rattle.node_names.specs.Names.{is_step_name};
ghost use Rattle.scopes.specs.Values.{HasValuesOf};
ghost use Rattle.wf_manifest.specs.declared.calls.Task.{Task as OneTask};
ghost use Rattle.meaning.specs.Lines.{nothing, then_parts};
ghost use Rattle.meaning.specs.Dags as dags;
ghost use Rattle.dag_plan.specs.Plans.{IsPlan};
ghost use Rattle.dag_board.specs.Boards.{Fits, stand_at, state_at};
ghost use Rattle.dag_board.specs.Ends.{TellsEnd, SeesAll, HasNode, Makes};
ghost use Rattle.dag_board.specs.Inside.Parts as parts;
ghost use Rattle.dag_board.specs.Inside.Parts.{part_then, parts_from, tags_from};

use crate::Board;
use base_types::{Memory, TryCopy};
use call_nodes::{bare, computed_node, copy_place, task_place};
use dag_plan::DagPlan;
use dag_template::{is_doomed, phase_seen, stands_at};
use growth::laws::rounds_settle;
use meaning::Place;
use scopes::{Scope, Tags};
use std::alloc::Global;
use tree_state::{Below, Shared, State};
use tree_types::{Kind, Node, Note, Path, Phase, Wants};
use wf_manifest::{Dag, OutputDecls, Task};

// How a DAG ends: whether it is doomed, and its phase.
#[derive(Clone, Copy, Debug)]
pub(crate) struct DagEnd {
    pub(crate) doomed: bool,
    pub(crate) phase: Phase,
}

fn or_running(phase: Option<Phase>) -> Phase
    ensures { result ≡ parts.or_running phase }
{
    match phase {
        Some(phase) => phase,
        None => Phase::Running,
    }
}

// Adds what stands for a task.
fn add_part(
    below: &mut Below,
    place: &Place,
    i: usize,
    task: &Task,
    state: Option<Shared>,
    begins: bool,
) -> Result<(), Memory>
    requires few { i < 2 ^ 32 }
    requires named { IsTrue (is_step_name task.now.call.name) }
    requires shallow { place.now.depth + 1 < 2 ^ 32 }
    ensures { OnOk result (below.new
        ≡ then_parts below.old (part_then begins (dags.task_place place.now i task.now) state nothing)) }
{
    if let Some(state) = state {
        return below.push_shared(state);
    }
    if !begins {
        return Ok(());
    }
    let at = task_place(place, i as u32, task)?;
    below.may_begin(Path { sels: at.sels })
}

impl Board {
    fn end(&self, alloc: Global, dag: &Dag, plan: &DagPlan) -> Result<DagEnd, Memory>
        requires plan { IsPlan dag.now plan.now }
        requires fits { Fits dag.now self.now }
        ensures { IfOk result (TellsEnd dag.now plan.now self.now) }
    {
        rounds_settle();
        let stands = self.stands.as_slice();
        let targets = stands_at(alloc, stands, plan.targets.as_slice())?;
        let doomed = is_doomed(dag.fail_fast, targets.as_slice());
        let phase = or_running(phase_seen(doomed, stands, targets.as_slice()));
        Ok(DagEnd { doomed, phase })
    }

    fn all_tags(&self, alloc: Global, dag: &Dag) -> Result<Tags, Memory>
        requires { Fits dag.now self.now }
        ensures { IfOk result (λ tags. HasValuesOf tags (tags_from self.now 0 dag.now.tasks)) }
    {
        let mut tags = Tags::new(alloc);
        let mut left = dag.tasks.len();
        while left > 0 {
            left -= 1;
            self.add_tags(&mut tags, dag, left)?;
        }
        Ok(tags)
    }

    fn last_scope(
        &self,
        alloc: Global,
        dag: &Dag,
        plan: &DagPlan,
        scope: &Scope,
    ) -> Result<Scope, Memory>
        requires plan { IsPlan dag.now plan.now }
        requires fits { Fits dag.now self.now }
        ensures { IfOk result (λ inner. SeesAll dag.now plan.now self.now scope.now inner) }
    {
        rounds_settle();
        let tags = self.all_tags(alloc, dag)?;
        scope.with(tags)
    }

    fn begins(&self, doomed: bool, i: usize) -> bool
        requires { i < length self.now.stands.items }
        ensures { result ≡ (not doomed && (stand_at self.now i).ready) }
    {
        !doomed && self.stands[i].ready
    }

    fn into_below(
        mut self,
        alloc: Global,
        dag: &Dag,
        place: &Place,
        doomed: bool,
    ) -> Result<Below, Memory>
        requires fits { Fits dag.now self }
        requires few { length dag.now.tasks < 2 ^ 32 }
        requires named { (i : ℕ) (t : OneTask) → slice_get dag.now.tasks i ≡ Some t → IsTrue (is_step_name t.call.name) }
        requires shallow { place.now.depth + 1 < 2 ^ 32 }
        ensures { IfOk result (λ below. below ≡ parts_from doomed place.now self 0 dag.now.tasks) }
    {
        let mut below = Below::new(alloc);
        for i in 0..dag.tasks.len() {
            let begins = self.begins(doomed, i);
            let state = self.states[i].take();
            add_part(&mut below, place, i, dag.tasks.get(i), state, begins)?;
        }
        Ok(below)
    }

    fn node(
        &self,
        alloc: Global,
        dag: &Dag,
        plan: &DagPlan,
        place: &Place,
        scope: &Scope,
        declared: &OutputDecls,
        phase: Phase,
    ) -> Result<Node, Memory>
        requires plan { IsPlan dag.now plan.now }
        requires fits { Fits dag.now self.now }
        ensures { IfOk result (HasNode dag.now plan.now self.now place.now scope.now declared.now phase) }
    {
        let at = copy_place(place)?;
        // Only a DAG that Succeeded has outputs, so that nothing sees the tags of its tasks before.
        let Phase::Succeeded = phase else {
            return Ok(bare(at, Kind::DAG, phase, Note::None));
        };
        let inner = self.last_scope(alloc, dag, plan, scope)?;
        computed_node(at, Kind::DAG, phase, &inner, declared)
    }

    /// What the DAG makes at a place in a scope, once all its tasks were gone through.
    pub fn made(
        self,
        alloc: Global,
        dag: &Dag,
        plan: &DagPlan,
        place: &Place,
        scope: &Scope,
        declared: &OutputDecls,
    ) -> Result<State, Memory>
        requires plan { IsPlan dag.now plan.now }
        requires fits { Fits dag.now self }
        requires few { length dag.now.tasks < 2 ^ 32 }
        requires named { (i : ℕ) (t : OneTask) → slice_get dag.now.tasks i ≡ Some t → IsTrue (is_step_name t.call.name) }
        requires shallow { place.now.depth + 1 < 2 ^ 32 }
        ensures { IfOk result (Makes dag.now plan.now self place.now scope.now declared.now) }
    {
        rounds_settle();
        let end = self.end(alloc, dag, plan)?;
        let node = self.node(alloc, dag, plan, place, scope, declared, end.phase)?;
        let below = self.into_below(alloc, dag, place, end.doomed)?;
        Ok(State::new(node, Wants::new(alloc), below))
    }
}
