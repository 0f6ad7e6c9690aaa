//! A DAG that is made again: its tasks that do not stand behind the one that the path goes down into are shared.

ghost use Rattle.std.specs.Prelude.{length, take, suc, get_or, slice_get, Some, codes, ◌≡◌, ◌+◌, ◌*◌, ◌<◌, ◌++◌, ◌∷◌};
ghost use Rattle.tree_types.specs.declared.path.Sel.TheVariants as sels;
ghost use Rattle.scopes.specs.Values.{HasValuesOf};
ghost use Rattle.meaning.specs.Calls as meant;
ghost use Rattle.meaning.specs.Dags as dags;
ghost use Rattle.tree_state.specs.Counting.{Gives};
ghost use Rattle.tree_walk.specs.Walkable.{IsWalkableDag};
ghost use Rattle.dag_plan.specs.Plans.{IsPlan};
ghost use Rattle.dag_board.specs.Boards.{IsBoard, IsTurn, stands_at, seen_by};
ghost use Rattle.dag_stays.specs.Knowing.{WereSo};
ghost use Rattle.tree_walk.specs.Tasks.{GivesTask, GivesBoard, stood_count};
ghost use Rattle.tree_change.specs.Inside.Resuming.{Resumes, calls_now, calls_before};

use crate::again::Again;
use crate::share::shared;
use base_types::{Text, TryCopy};
use call_nodes::task_place;
use dag_board::Board;
use dag_plan::DagPlan;
use dag_stays::Were;
use dag_template::Verdict;
use leaf_states::saving;
use meaning::Place;
use recorded::Recorded;
use scopes::Scope;
use tree_state::{Room, Shared, State, TreeRefused};
use tree_types::Sel;
use tree_walk::{Listed, begins};
use wf_manifest::{Dag, Memoize, OutputDecls, Task};

impl<R: Recorded> Again<'_, R> {
    // A DAG whose cache had nothing.
    #[cycle(again)]
    pub(crate) fn missed_dag(
        &self,
        place: Place,
        scope: &Scope,
        declared: &OutputDecls,
        memoize: &Memoize,
        key: Text,
        dag: &Dag,
        plan: &DagPlan,
        old: &State,
        j: u32,
        rest: &[Sel],
        left: u32,
        room: &mut Room,
    ) -> Result<State, TreeRefused>
        requires resumes { Resumes R.answers self.now (place.sels ++ sels.Task j ∷ rest.now) }
        requires walkable { IsWalkableDag dag.now }
        requires plan { IsPlan dag.now plan.now }
        requires shallow { place.depth + 5 * left + 8 < 1000 }
        requires was { let B = R.answers self.now.before.now in
            old.now ≡ dags.dag_made B (calls_before R.answers self.now left) place scope.now declared.now dag.now }
        ensures { let A = R.answers self.now.walk.recorded.now in
            Gives room.old room.new result (meant.saving place memoize.now key
            (dags.dag_made A (calls_now R.answers self.now left) place scope.now declared.now dag.now)) }
    {
        let at = place.sels.copy()?;
        let state = self.dag(place, scope, declared, dag, plan, old, j, rest, left, room)?;
        Ok(saving(state, at, memoize, key)?)
    }

    // A DAG, where the path goes down into its task `j`.
    #[cycle(again)]
    pub(crate) fn dag(
        &self,
        place: Place,
        scope: &Scope,
        declared: &OutputDecls,
        dag: &Dag,
        plan: &DagPlan,
        old: &State,
        j: u32,
        rest: &[Sel],
        left: u32,
        room: &mut Room,
    ) -> Result<State, TreeRefused>
        requires resumes { Resumes R.answers self.now (place.sels ++ sels.Task j ∷ rest.now) }
        requires walkable { IsWalkableDag dag.now }
        requires plan { IsPlan dag.now plan.now }
        requires shallow { place.depth + 5 * left + 8 < 1000 }
        requires was { let B = R.answers self.now.before.now in
            old.now ≡ dags.dag_made B (calls_before R.answers self.now left) place scope.now declared.now dag.now }
        ensures { let A = R.answers self.now.walk.recorded.now in
            Gives room.old room.new result
            (dags.dag_made A (calls_now R.answers self.now left) place scope.now declared.now dag.now) }
    {
        if let Some(state) = self.begun_alone(&place, scope, dag, plan, old, j, rest, left)? {
            room.take_all(state.count())?;
            return Ok(state);
        }
        if let Some(state) = self.followed(&place, scope, dag, plan, old, j, rest, left)? {
            room.take_all(state.count())?;
            return Ok(state);
        }
        self.other_dag(place, scope, declared, dag, plan, old, j, rest, left, room)
    }

    // A DAG whose tasks are gone through, where the path goes down into its task `j`.
    #[cycle(again)]
    fn other_dag(
        &self,
        place: Place,
        scope: &Scope,
        declared: &OutputDecls,
        dag: &Dag,
        plan: &DagPlan,
        old: &State,
        j: u32,
        rest: &[Sel],
        left: u32,
        room: &mut Room,
    ) -> Result<State, TreeRefused>
        requires resumes { Resumes R.answers self.now (place.sels ++ sels.Task j ∷ rest.now) }
        requires walkable { IsWalkableDag dag.now }
        requires plan { IsPlan dag.now plan.now }
        requires shallow { place.depth + 5 * left + 8 < 1000 }
        requires was { let B = R.answers self.now.before.now in
            old.now ≡ dags.dag_made B (calls_before R.answers self.now left) place scope.now declared.now dag.now }
        ensures { let A = R.answers self.now.walk.recorded.now in
            Gives room.old room.new result
            (dags.dag_made A (calls_now R.answers self.now left) place scope.now declared.now dag.now) }
    {
        room.take()?;
        let alloc = self.walk.alloc();
        let before = old.calls()?;
        let were = Were::new(alloc, dag, plan, &before, place.sels.len(), j as usize)?;
        let board = self.tasks(&place, scope, dag, plan, &were, j, rest, left, room)?;
        Ok(board.made(alloc, dag, plan, &place, scope, declared)?)
    }

    // A board of all tasks, gone through in the order of their plan.
    #[cycle(again)]
    fn tasks(
        &self,
        place: &Place,
        scope: &Scope,
        dag: &Dag,
        plan: &DagPlan,
        were: &Were,
        j: u32,
        rest: &[Sel],
        left: u32,
        room: &mut Room,
    ) -> Result<Board, TreeRefused>
        requires resumes { Resumes R.answers self.now (place.now.sels ++ sels.Task j ∷ rest.now) }
        requires walkable { IsWalkableDag dag.now }
        requires plan { IsPlan dag.now plan.now }
        requires shallow { place.now.depth + 5 * left + 8 < 1000 }
        requires were { let m = self.now.walk.manifest.now in
            let B = R.answers self.now.before.now in
            let g = self.now.walk.globals.now in
            WereSo m B g left place.now scope.now dag.now plan.now j were.now }
        ensures { let A = R.answers self.now.walk.recorded.now in
            let called = calls_now R.answers self.now left in
            GivesBoard A called place.now scope.now dag.now plan.now.order room.old room.new result }
    {
        let mut board = Board::new(self.walk.alloc(), dag)?;
        for k in 0..plan.order.len() {
            self.task(
                &mut board, place, scope, dag, plan, were, k, j, rest, left, room,
            )?;
        }
        Ok(board)
    }

    // The task whose turn is next.
    #[cycle(again)]
    fn task(
        &self,
        board: &mut Board,
        place: &Place,
        scope: &Scope,
        dag: &Dag,
        plan: &DagPlan,
        were: &Were,
        k: usize,
        j: u32,
        rest: &[Sel],
        left: u32,
        room: &mut Room,
    ) -> Result<(), TreeRefused>
        requires resumes { Resumes R.answers self.now (place.now.sels ++ sels.Task j ∷ rest.now) }
        requires walkable { IsWalkableDag dag.now }
        requires plan { IsPlan dag.now plan.now }
        requires low { k < length plan.now.order }
        requires board { let A = R.answers self.now.walk.recorded.now in
            let called = calls_now R.answers self.now left in
            IsBoard A called place.now scope.now dag.now (take k plan.now.order) board.now }
        requires shallow { place.now.depth + 5 * left + 8 < 1000 }
        requires were { let m = self.now.walk.manifest.now in
            let B = R.answers self.now.before.now in
            let g = self.now.walk.globals.now in
            WereSo m B g left place.now scope.now dag.now plan.now j were.now }
        ensures { let A = R.answers self.now.walk.recorded.now in
            let called = calls_now R.answers self.now left in
            GivesTask room.old room.new result
            (IsBoard A called place.now scope.now dag.now (take (suc k) plan.now.order) board.new)
            (stood_count (stands_at A called place.now scope.now dag.now (get_or plan.now.order k 0))) }
    {
        let i = *plan.order.get(k);
        let task = dag.tasks.get(i);
        match board.verdict(self.walk.alloc(), dag, plan, i)? {
            Verdict::Waits => Ok(()),
            Verdict::Denied(branch) => {
                room.take()?;
                Ok(board.omit(self.walk.alloc(), dag, plan, i, place, branch)?)
            }
            Verdict::Holds => self.freed(
                board, place, scope, dag, plan, were, k, i, task, j, rest, left, room,
            ),
        }
    }

    // The task whose turn is next, and which nothing holds back. One that stays had begun, so that nothing is asked of it.
    #[cycle(again)]
    fn freed(
        &self,
        board: &mut Board,
        place: &Place,
        scope: &Scope,
        dag: &Dag,
        plan: &DagPlan,
        were: &Were,
        k: usize,
        i: usize,
        task: &Task,
        j: u32,
        rest: &[Sel],
        left: u32,
        room: &mut Room,
    ) -> Result<(), TreeRefused>
        requires resumes { Resumes R.answers self.now (place.now.sels ++ sels.Task j ∷ rest.now) }
        requires walkable { IsWalkableDag dag.now }
        requires plan { IsPlan dag.now plan.now }
        requires turn { IsTurn dag.now plan.now k i task.now }
        requires board { let A = R.answers self.now.walk.recorded.now in
            let called = calls_now R.answers self.now left in
            IsBoard A called place.now scope.now dag.now (take k plan.now.order) board.now }
        requires free { let A = R.answers self.now.walk.recorded.now in
            let called = calls_now R.answers self.now left in
            stands_at A called place.now scope.now dag.now i
            ≡ dags.free A called place.now scope.now dag.now (seen_by A called place.now scope.now dag.now task.now) i task.now }
        requires place { i < length dag.now.tasks }
        requires shallow { place.now.depth + 5 * left + 8 < 1000 }
        requires were { let m = self.now.walk.manifest.now in
            let B = R.answers self.now.before.now in
            let g = self.now.walk.globals.now in
            WereSo m B g left place.now scope.now dag.now plan.now j were.now }
        ensures { let A = R.answers self.now.walk.recorded.now in
            let called = calls_now R.answers self.now left in
            GivesTask room.old room.new result
            (IsBoard A called place.now scope.now dag.now (take (suc k) plan.now.order) board.new)
            (stood_count (stands_at A called place.now scope.now dag.now i)) }
    {
        if let Some(old) = were.stays(i) {
            let same = shared(old, room)?;
            return Ok(board.begin(self.walk.alloc(), dag, plan, i, same)?);
        }
        let at = task_place(place, i as u32, task)?;
        if !begins(self.walk.recorded, dag, &at) {
            board.set_ready(self.walk.alloc(), dag, plan, i);
            return Ok(());
        }
        let made = self.begun(
            board, place, at, scope, dag, plan, were, k, i, task, j, rest, left, room,
        )?;
        Ok(board.begin(self.walk.alloc(), dag, plan, i, made)?)
    }

    // What the task whose turn is next makes, which begins and does not stay.
    #[cycle(again)]
    fn begun(
        &self,
        board: &Board,
        place: &Place,
        at: Place,
        scope: &Scope,
        dag: &Dag,
        plan: &DagPlan,
        were: &Were,
        k: usize,
        i: usize,
        task: &Task,
        j: u32,
        rest: &[Sel],
        left: u32,
        room: &mut Room,
    ) -> Result<Shared, TreeRefused>
        requires resumes { Resumes R.answers self.now (place.now.sels ++ sels.Task j ∷ rest.now) }
        requires plan { IsPlan dag.now plan.now }
        requires turn { IsTurn dag.now plan.now k i task.now }
        requires board { let A = R.answers self.now.walk.recorded.now in
            let called = calls_now R.answers self.now left in
            IsBoard A called place.now scope.now dag.now (take k plan.now.order) board.now }
        requires begun { let A = R.answers self.now.walk.recorded.now in
            let called = calls_now R.answers self.now left in
            stands_at A called place.now scope.now dag.now i
            ≡ dags.begun_task A called place.now scope.now dag.now (seen_by A called place.now scope.now dag.now task.now) i task.now }
        requires place { i < length dag.now.tasks }
        requires at { at ≡ dags.task_place place.now i task.now }
        requires shallow { place.now.depth + 5 * left + 8 < 1000 }
        requires were { let m = self.now.walk.manifest.now in
            let B = R.answers self.now.before.now in
            let g = self.now.walk.globals.now in
            WereSo m B g left place.now scope.now dag.now plan.now j were.now }
        ensures { let A = R.answers self.now.walk.recorded.now in
            let called = calls_now R.answers self.now left in
            Gives room.old room.new result (called (codes "tasks.") (dags.task_place place.now i task.now)
            (seen_by A called place.now scope.now dag.now task.now ++ scope.now) task.now.call) }
    {
        let inner = board.scope_before(self.walk.alloc(), dag, plan, i, scope)?;
        let state = self.inside(
            place, at, scope, &inner, dag, plan, were, i, task, j, rest, left, room,
        )?;
        Ok(Shared::new(state)?)
    }

    // What a task's call makes in its scope: by what it made, where the path goes down into it.
    #[cycle(again)]
    fn inside(
        &self,
        place: &Place,
        at: Place,
        scope: &Scope,
        inner: &Scope,
        dag: &Dag,
        plan: &DagPlan,
        were: &Were,
        i: usize,
        task: &Task,
        j: u32,
        rest: &[Sel],
        left: u32,
        room: &mut Room,
    ) -> Result<State, TreeRefused>
        requires resumes { Resumes R.answers self.now (place.now.sels ++ sels.Task j ∷ rest.now) }
        requires plan { IsPlan dag.now plan.now }
        requires task { slice_get dag.now.tasks i ≡ Some task.now }
        requires place { i < length dag.now.tasks }
        requires at { at ≡ dags.task_place place.now i task.now }
        requires values { let A = R.answers self.now.walk.recorded.now in
            let called = calls_now R.answers self.now left in
            HasValuesOf inner.now (seen_by A called place.now scope.now dag.now task.now ++ scope.now) }
        requires shallow { place.now.depth + 5 * left + 8 < 1000 }
        requires were { let m = self.now.walk.manifest.now in
            let B = R.answers self.now.before.now in
            let g = self.now.walk.globals.now in
            WereSo m B g left place.now scope.now dag.now plan.now j were.now }
        ensures { Gives room.old room.new result
            (calls_now R.answers self.now left (codes "tasks.") at inner.now task.now.call) }
    {
        let Some(old) = were.ran(plan, i) else {
            return self
                .walk
                .call(Listed::Tasks, at, inner, &task.call, left, room);
        };
        let before = old.state();
        self.call(
            Listed::Tasks,
            at,
            inner,
            &task.call,
            before,
            rest,
            left,
            room,
        )
    }
}
