//! The walk over the tasks of a DAG, in the order of their plan.

ghost use Rattle.std.specs.Prelude.{length, take, suc, get_or, ◌≡◌, ◌+◌, ◌*◌, ◌<◌};
ghost use Rattle.meaning.specs.Calls as meant;
ghost use Rattle.meaning.specs.Dags as dags;
ghost use Rattle.tree_state.specs.Counting.{Gives};
ghost use Rattle.tree_walk.specs.Walkable.{IsWalkableDag};
ghost use Rattle.tree_walk.specs.Index.{IsReady};
ghost use Rattle.dag_plan.specs.Plans.{IsPlan};
ghost use Rattle.dag_board.specs.Boards.{IsBoard, IsTurn, stands_at, seen_by};
ghost use Rattle.tree_walk.specs.Tasks.{GivesTask, GivesBoard, stood_count};

use crate::Walk;
use crate::over::{Listed, begins};
use call_nodes::task_place;
use dag_board::Board;
use dag_plan::DagPlan;
use dag_template::Verdict;
use meaning::Place;
use recorded::Recorded;
use scopes::Scope;
use tree_state::{Room, Shared, State, TreeRefused};
use wf_manifest::{Dag, OutputDecls, Task};

impl<R: Recorded> Walk<'_, R> {
    #[cycle(walk)]
    pub(crate) fn dag(
        &self,
        place: Place,
        scope: &Scope,
        declared: &OutputDecls,
        dag: &Dag,
        plan: &DagPlan,
        left: u32,
        room: &mut Room,
    ) -> Result<State, TreeRefused>
        requires ready { IsReady self.now.manifest.now self.now.positions.now }
        requires walkable { IsWalkableDag dag.now }
        requires plan { IsPlan dag.now plan.now }
        requires shallow { place.depth + 5 * left + 8 < 1000 }
        ensures { let m = self.now.manifest.now in
            let A = R.answers self.now.recorded.now in
            let called = meant.calls m A self.now.globals.now left in
            Gives room.old room.new result
            (dags.dag_made A called place scope.now declared.now dag.now) }
    {
        room.take()?;
        let board = self.tasks(&place, scope, dag, plan, left, room)?;
        Ok(board.made(self.alloc(), dag, plan, &place, scope, declared)?)
    }

    // A board of all tasks, gone through in the order of their plan.
    #[cycle(walk)]
    fn tasks(
        &self,
        place: &Place,
        scope: &Scope,
        dag: &Dag,
        plan: &DagPlan,
        left: u32,
        room: &mut Room,
    ) -> Result<Board, TreeRefused>
        requires ready { IsReady self.now.manifest.now self.now.positions.now }
        requires walkable { IsWalkableDag dag.now }
        requires plan { IsPlan dag.now plan.now }
        requires shallow { place.now.depth + 5 * left + 8 < 1000 }
        ensures { let m = self.now.manifest.now in
            let A = R.answers self.now.recorded.now in
            let called = meant.calls m A self.now.globals.now left in
            GivesBoard A called place.now scope.now dag.now plan.now.order room.old room.new result }
    {
        let mut board = Board::new(self.alloc(), dag)?;
        for k in 0..plan.order.len() {
            self.task(&mut board, place, scope, dag, plan, k, left, room)?;
        }
        Ok(board)
    }

    // The task whose turn is next.
    #[cycle(walk)]
    fn task(
        &self,
        board: &mut Board,
        place: &Place,
        scope: &Scope,
        dag: &Dag,
        plan: &DagPlan,
        k: usize,
        left: u32,
        room: &mut Room,
    ) -> Result<(), TreeRefused>
        requires ready { IsReady self.now.manifest.now self.now.positions.now }
        requires walkable { IsWalkableDag dag.now }
        requires plan { IsPlan dag.now plan.now }
        requires low { k < length plan.now.order }
        requires board { let m = self.now.manifest.now in
            let A = R.answers self.now.recorded.now in
            let called = meant.calls m A self.now.globals.now left in
            IsBoard A called place.now scope.now dag.now (take k plan.now.order) board.now }
        requires shallow { place.now.depth + 5 * left + 8 < 1000 }
        ensures { let m = self.now.manifest.now in
            let A = R.answers self.now.recorded.now in
            let called = meant.calls m A self.now.globals.now left in
            GivesTask room.old room.new result
            (IsBoard A called place.now scope.now dag.now (take (suc k) plan.now.order) board.new)
            (stood_count (stands_at A called place.now scope.now dag.now (get_or plan.now.order k 0))) }
    {
        let i = *plan.order.get(k);
        let task = dag.tasks.get(i);
        match board.verdict(self.alloc(), dag, plan, i)? {
            Verdict::Waits => Ok(()),
            Verdict::Denied(branch) => {
                room.take()?;
                Ok(board.omit(self.alloc(), dag, plan, i, place, branch)?)
            }
            Verdict::Holds => self.freed(board, place, scope, dag, plan, k, i, task, left, room),
        }
    }

    // The task whose turn is next, and which nothing holds back.
    #[cycle(walk)]
    fn freed(
        &self,
        board: &mut Board,
        place: &Place,
        scope: &Scope,
        dag: &Dag,
        plan: &DagPlan,
        k: usize,
        i: usize,
        task: &Task,
        left: u32,
        room: &mut Room,
    ) -> Result<(), TreeRefused>
        requires ready { IsReady self.now.manifest.now self.now.positions.now }
        requires walkable { IsWalkableDag dag.now }
        requires plan { IsPlan dag.now plan.now }
        requires turn { IsTurn dag.now plan.now k i task.now }
        requires board { let m = self.now.manifest.now in
            let A = R.answers self.now.recorded.now in
            let called = meant.calls m A self.now.globals.now left in
            IsBoard A called place.now scope.now dag.now (take k plan.now.order) board.now }
        requires free { let m = self.now.manifest.now in
            let A = R.answers self.now.recorded.now in
            let called = meant.calls m A self.now.globals.now left in
            stands_at A called place.now scope.now dag.now i
            ≡ dags.free A called place.now scope.now dag.now (seen_by A called place.now scope.now dag.now task.now) i task.now }
        requires place { i < length dag.now.tasks }
        requires shallow { place.now.depth + 5 * left + 8 < 1000 }
        ensures { let m = self.now.manifest.now in
            let A = R.answers self.now.recorded.now in
            let called = meant.calls m A self.now.globals.now left in
            GivesTask room.old room.new result
            (IsBoard A called place.now scope.now dag.now (take (suc k) plan.now.order) board.new)
            (stood_count (stands_at A called place.now scope.now dag.now i)) }
    {
        let at = task_place(place, i as u32, task)?;
        if !begins(self.recorded, dag, &at) {
            board.set_ready(self.alloc(), dag, plan, i);
            return Ok(());
        }
        let inner = board.scope_before(self.alloc(), dag, plan, i, scope)?;
        let state = self.call(Listed::Tasks, at, &inner, &task.call, left, room)?;
        let made = Shared::new(state)?;
        Ok(board.begin(self.alloc(), dag, plan, i, made)?)
    }
}
