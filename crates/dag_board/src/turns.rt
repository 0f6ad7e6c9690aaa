//! One task more is done.

ghost use Rattle.std.specs.Prelude.{◌≡◌, ◌+◌, ◌<◌, ◌^◌, [], length, get_or, IfOk, OnOk, IsTrue, slice_get, Some};
ghost use Rattle.node_names.specs.Names.{is_step_name};
ghost use Rattle.meaning.specs.Lines.{alone};
ghost use Rattle.meaning.specs.Dags.{exists, ready};
ghost use Rattle.wf_manifest.specs.declared.calls.Task.{Task as OneTask};
ghost use Rattle.dag_plan.specs.Plans.{IsPlan};
ghost use Rattle.dag_template.specs.Stands.{sight};
ghost use Rattle.dag_board.specs.Boards.{Fits};
ghost use Rattle.dag_board.specs.Turns.{Exists, Begins, Omits, IsReady};
ghost use Rattle.dag_board.specs.Inside.Puts.{IsPut};

use crate::Board;
use base_types::Memory;
use call_nodes::{bare, covered, task_place};
use dag_plan::DagPlan;
use dag_template::{Stand, waiting};
use depends_expr::TaskResult;
use meaning::Place;
use std::alloc::Global;
use tree_state::{Below, Shared, State};
use tree_types::{Kind, Note, Phase, Wants};
use wf_manifest::Dag;

/// What others see of a task that exists with this branch phase, by what it made.
pub fn stand_existing(branch: Phase, state: &State) -> Stand
    ensures { result ≡ sight (exists state.now branch []) }
{
    let phase = state.phase();
    Stand {
        existing: true,
        denied: matches!(state.node().note, Note::DependsFalse),
        ready: false,
        over: state.is_finished(),
        branch,
        result: TaskResult {
            succeeded: matches!(phase, Phase::Succeeded),
            failed: matches!(phase, Phase::Failed),
            errored: matches!(phase, Phase::Error),
            skipped: matches!(phase, Phase::Skipped),
            omitted: matches!(phase, Phase::Omitted),
            any_succeeded: state.any_succeeded(),
            all_failed: state.all_failed(),
        },
    }
}

fn stand_ready() -> Stand
    ensures { result ≡ sight ready }
{
    Stand {
        ready: true,
        ..waiting()
    }
}

// The node of an Omitted task.
fn omitted_state(alloc: Global, place: Place) -> State
    ensures { result ≡ alone place Kind.Skipped Phase.Omitted Note.DependsFalse }
{
    let node = bare(place, Kind::Skipped, Phase::Omitted, Note::DependsFalse);
    State::new(node, Wants::new(alloc), Below::new(alloc))
}

impl Board {
    fn put(&mut self, i: usize, stand: Stand, state: Option<Shared>)
        requires stands { i < length self.old.stands.items }
        requires states { i < length self.old.states.items }
        ensures { IsPut self.old self.new i stand state }
    {
        self.stands[i] = stand;
        self.states[i] = state;
    }

    fn exist(&mut self, dag: &Dag, plan: &DagPlan, i: usize, branch: Phase, state: Shared)
        requires fits { Fits dag.now self.old }
        requires place { i < length dag.now.tasks }
        ensures { Exists dag.now plan.now self.old self.new i branch state }
    {
        let stand = stand_existing(branch, state.state());
        self.put(i, stand, Some(state));
    }

    /// The task at position `i`, whose turn is next, begins, and its call made this.
    pub fn begin(
        &mut self,
        alloc: Global,
        dag: &Dag,
        plan: &DagPlan,
        i: usize,
        state: Shared,
    ) -> Result<(), Memory>
        requires plan { IsPlan dag.now plan.now }
        requires fits { Fits dag.now self.old }
        requires place { i < length dag.now.tasks }
        ensures { OnOk result (Begins dag.now plan.now self.old self.new i state) }
    {
        let branch = covered(&dag.tasks.get(i).call.continue_on, state.state().phase());
        self.exist(dag, plan, i, branch, state);
        Ok(())
    }

    /// The task at position `i`, whose turn is next, is Omitted below this place, with this branch phase.
    pub fn omit(
        &mut self,
        alloc: Global,
        dag: &Dag,
        plan: &DagPlan,
        i: usize,
        place: &Place,
        branch: Phase,
    ) -> Result<(), Memory>
        requires plan { IsPlan dag.now plan.now }
        requires fits { Fits dag.now self.old }
        requires place { i < length dag.now.tasks }
        requires few { length dag.now.tasks < 2 ^ 32 }
        requires named { (t : OneTask) → slice_get dag.now.tasks i ≡ Some t → IsTrue (is_step_name t.call.name) }
        requires shallow { place.now.depth + 1 < 2 ^ 32 }
        ensures { OnOk result (Omits dag.now plan.now self.old self.new i place.now branch) }
    {
        let task = dag.tasks.get(i);
        let at = task_place(place, i as u32, task)?;
        let state = Shared::new(omitted_state(alloc, at))?;
        self.exist(dag, plan, i, branch, state);
        Ok(())
    }

    /// The task at position `i`, whose turn is next, is ready: it may begin, and its beginning is not recorded.
    pub fn set_ready(&mut self, alloc: Global, dag: &Dag, plan: &DagPlan, i: usize)
        requires plan { IsPlan dag.now plan.now }
        requires fits { Fits dag.now self.old }
        requires place { i < length dag.now.tasks }
        ensures { IsReady dag.now plan.now self.old self.new i }
    {
        self.put(i, stand_ready(), None);
    }
}
