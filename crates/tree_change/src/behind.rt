//! A task of a DAG that ends where others wait for it: what becomes of these is put where it belongs, and all else is shared.

ghost use Rattle.std.specs.Prelude.{◌≡◌, [], ◌+◌, ◌*◌, ◌<◌, ◌&&◌, ◌++◌, ◌∷◌, ◌==◌, not, ℕ, List as Seq, IfOk, IfSome, IsTrue, Some, codes, false, get_or, length, slice_get, true};
ghost use Rattle.std.specs.List.{list_any};
ghost use Rattle.tree_types.specs.declared.path.Sel.TheVariants as sels;
ghost use Rattle.wf_manifest.specs.declared.templates.OutputDecl.{OutputDecl};
ghost use Rattle.meaning.specs.Lines.{row_in, all_finished};
ghost use Rattle.meaning.specs.Dags as dags;
ghost use Rattle.meaning.specs.Dags.{Standings, parents, tags_before, look};
ghost use Rattle.dag_plan.specs.Plans.{IsPlan};
ghost use Rattle.dag_stays.specs.Behind.{AreBehind};
ghost use Rattle.tree_walk.specs.Index.{IsReady};
ghost use Rattle.tree_walk.specs.Walkable.{IsWalkableDag};
ghost use Rattle.tree_change.specs.Changes.{IfGiven};
ghost use Rattle.tree_change.specs.Inside.Behind.{newest, AreTagged, TellsFollower, IsSoFar, HasAllBehind};
ghost use Rattle.tree_change.specs.Inside.Resuming.{Resumes, calls_now, calls_before};

use crate::again::Again;
use crate::beginning::sees_none;
use crate::change::Change;
use crate::leaf::item_at;
use base_types::Memory;
use call_nodes::task_place;
use dag_plan::DagPlan;
use dag_stays::{Following, call_of_task, is_undoomed, spares, what_becomes};
use meaning::Place;
use recorded::Recorded;
use scopes::Scope;
use tree_state::{Entry, Shared, State};
use tree_types::{Path, Sel};
use tree_walk::begins;
use wf_manifest::{Dag, Task};

// What becomes of a task that waited for one that ended.
#[derive(Drop)]
enum Follower {
    Waits,
    // It may begin, or runs.
    Enters(Entry),
}

// What became of those that were looked at: the DAG's node over it, none as long as all of them wait, and whether one of them
// keeps the DAG from its end.
#[derive(Drop)]
struct Followed {
    state: Option<State>,
    goes_on: bool,
}

impl Followed {
    fn newest<'a>(&'a self, middle: &'a State) -> &'a State
        ensures { result.now ≡ newest self.now.state middle.now }
    {
        match &self.state {
            Some(state) => state,
            None => middle,
        }
    }

    // Whether the DAG may be over: no call below it runs, and none of those that were looked at keeps it from its end.
    fn may_be_over(&self, middle: &State) -> bool
        ensures { result ≡ (not self.now.goes_on && all_finished (row_in (newest self.now.state middle.now).parts)) }
    {
        !self.goes_on && self.newest(middle).all_finished()
    }

    fn into_newest(self, middle: State) -> State
        ensures { result ≡ newest self.state middle }
    {
        match self.state {
            Some(state) => state,
            None => middle,
        }
    }
}

impl<R: Recorded> Again<'_, R> {
    // A DAG whose task `j` ends. None where it does not end by this fact, or where more may change than what waits for it.
    pub(crate) fn followed(
        &self,
        place: &Place,
        scope: &Scope,
        dag: &Dag,
        plan: &DagPlan,
        old: &State,
        j: u32,
        rest: &[Sel],
        left: u32,
    ) -> Result<Option<State>, Memory>
        requires resumes { Resumes R.answers self.now (place.now.sels ++ sels.Task j ∷ rest.now) }
        requires walkable { IsWalkableDag dag.now }
        requires plan { IsPlan dag.now plan.now }
        requires shallow { place.now.depth + 5 * left + 8 < 1000 }
        ensures { (declared : Seq OutputDecl) →
            old.now ≡ dags.dag_made (R.answers self.now.before.now) (calls_before R.answers self.now left) place.now scope.now declared dag.now →
            IfGiven result (λ z. z ≡ dags.dag_made (R.answers self.now.walk.recorded.now) (calls_now R.answers self.now left) place.now scope.now declared dag.now) }
    {
        let Some(task) = item_at(&dag.tasks, j as usize) else {
            return Ok(None);
        };
        let Some((at, made)) = call_of_task(old, j) else {
            return Ok(None);
        };
        let change = Change {
            manifest: self.walk.manifest,
            positions: self.walk.positions,
            recorded: self.walk.recorded,
        };
        if made.is_finished() || !change.has_begun(dag, made) {
            return Ok(None);
        }
        let Some(new) = change.call(made, &task.call, rest)? else {
            return Ok(None);
        };
        if !spares(dag, task, &new) {
            return Ok(None);
        }
        let middle = old.with_call(at, new)?;
        if !is_undoomed(dag, plan, &middle) {
            return Ok(None);
        }
        self.behind(place, scope, dag, plan, middle, j, left)
    }

    // The tree in which task `j` alone ended, over what becomes of those that wait for it. None where one of them ends at once,
    // where it is Omitted, or where the DAG may be over.
    fn behind(
        &self,
        place: &Place,
        scope: &Scope,
        dag: &Dag,
        plan: &DagPlan,
        middle: State,
        j: u32,
        left: u32,
    ) -> Result<Option<State>, Memory>
        requires ready { IsReady self.now.walk.manifest.now self.now.walk.positions.now }
        requires walkable { IsWalkableDag dag.now }
        requires plan { IsPlan dag.now plan.now }
        requires place { j < length dag.now.tasks }
        requires shallow { place.now.depth + 5 * left + 8 < 1000 }
        ensures { let A = R.answers self.now.walk.recorded.now in
            let called = calls_now R.answers self.now left in
            (us : Standings) → AreTagged us → AreBehind A called place.now scope.now dag.now us (get_or plan.now.behind j []) middle →
            IfGiven result (HasAllBehind A called place.now scope.now dag.now us (get_or plan.now.behind j []) middle) }
    {
        let mut so_far = Followed {
            state: None,
            goes_on: false,
        };
        let followers = plan.behind.get(j as usize).as_slice();
        for i in 0..followers.len() {
            let k = followers[i];
            match self.with_follower(place, scope, dag, plan, &middle, so_far, k, left)? {
                None => return Ok(None),
                Some(next) => so_far = next,
            }
        }
        if so_far.may_be_over(&middle) {
            return Ok(None);
        }
        Ok(Some(so_far.into_newest(middle)))
    }

    // One task more was looked at.
    fn with_follower(
        &self,
        place: &Place,
        scope: &Scope,
        dag: &Dag,
        plan: &DagPlan,
        middle: &State,
        so_far: Followed,
        k: usize,
        left: u32,
    ) -> Result<Option<Followed>, Memory>
        requires ready { IsReady self.now.walk.manifest.now self.now.walk.positions.now }
        requires walkable { IsWalkableDag dag.now }
        requires plan { IsPlan dag.now plan.now }
        requires place { k < length dag.now.tasks }
        requires shallow { place.now.depth + 5 * left + 8 < 1000 }
        ensures { let A = R.answers self.now.walk.recorded.now in
            let called = calls_now R.answers self.now left in
            (us : Standings) (ks done : Seq ℕ) → AreTagged us → AreBehind A called place.now scope.now dag.now us ks middle.now →
            list_any (λ n. n == k) ks ≡ true → list_any (λ n. n == k) done ≡ false →
            IsSoFar A called place.now scope.now dag.now us done middle.now so_far →
            IfOk result (λ found. IfSome found (IsSoFar A called place.now scope.now dag.now us (done ++ k ∷ []) middle.now)) }
    {
        match self.follower(place, scope, dag, plan, middle, k, left)? {
            None => Ok(None),
            Some(Follower::Waits) => Ok(Some(so_far)),
            Some(Follower::Enters(entry)) => {
                let newest = so_far.newest(middle);
                match newest.with_entry(k as u32, entry)? {
                    None => Ok(None),
                    Some(state) => Ok(Some(Followed {
                        state: Some(state),
                        goes_on: true,
                    })),
                }
            }
        }
    }

    // What becomes of the task at position `k`, where the DAG's node stands over what its tasks made.
    fn follower(
        &self,
        place: &Place,
        scope: &Scope,
        dag: &Dag,
        plan: &DagPlan,
        middle: &State,
        k: usize,
        left: u32,
    ) -> Result<Option<Follower>, Memory>
        requires ready { IsReady self.now.walk.manifest.now self.now.walk.positions.now }
        requires walkable { IsWalkableDag dag.now }
        requires plan { IsPlan dag.now plan.now }
        requires place { k < length dag.now.tasks }
        requires shallow { place.now.depth + 5 * left + 8 < 1000 }
        ensures { let A = R.answers self.now.walk.recorded.now in
            let called = calls_now R.answers self.now left in
            (us : Standings) (ks : Seq ℕ) → AreTagged us → AreBehind A called place.now scope.now dag.now us ks middle.now →
            IfOk result (λ found. IfSome found (TellsFollower A called place.now scope.now dag.now us k)) }
    {
        match what_becomes(self.walk.alloc(), dag, plan, middle, k)? {
            Following::Omitted => Ok(None),
            Following::Waits => Ok(Some(Follower::Waits)),
            Following::Freed => self.freed_behind(place, scope, dag, dag.tasks.get(k), k, left),
        }
    }

    // A task that nothing holds back: it may begin, or begins. None where it sees a tag of another, and where its call ends at
    // once.
    fn freed_behind(
        &self,
        place: &Place,
        scope: &Scope,
        dag: &Dag,
        task: &Task,
        k: usize,
        left: u32,
    ) -> Result<Option<Follower>, Memory>
        requires ready { IsReady self.now.walk.manifest.now self.now.walk.positions.now }
        requires walkable { IsWalkableDag dag.now }
        requires task { slice_get dag.now.tasks k ≡ Some task.now }
        requires place { k < length dag.now.tasks }
        requires shallow { place.now.depth + 5 * left + 8 < 1000 }
        ensures { let A = R.answers self.now.walk.recorded.now in
            let called = calls_now R.answers self.now left in
            (us : Standings) → AreTagged us →
            dags.standing A called place.now scope.now dag.now (look us) k task.now
            ≡ dags.free A called place.now scope.now dag.now (tags_before (look us) (parents dag.now.tasks task.now)) k task.now →
            IfOk result (λ found. IfSome found (TellsFollower A called place.now scope.now dag.now us k)) }
    {
        let at = task_place(place, k as u32, task)?;
        if !begins(self.walk.recorded, dag, &at) {
            return Ok(Some(Follower::Enters(Entry::MayBegin(Path { sels: at.sels }))));
        }
        let sees_none = sees_none(dag, task)?;
        if !sees_none {
            return Ok(None);
        }
        let Some(new) = self.anew(at, scope, task, left)? else {
            return Ok(None);
        };
        if new.is_finished() {
            return Ok(None);
        }
        Ok(Some(Follower::Enters(Entry::Begun(Shared::new(new)?))))
    }
}
