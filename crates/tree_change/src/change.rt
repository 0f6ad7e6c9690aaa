//! The way down to the place of a fact, and up again.

ghost use Rattle.std.specs.Prelude.{◌≡◌, ◌||◌, not, IsTrue, Some};
ghost use Rattle.wf_manifest.specs.Valid.{retry_fits};
ghost use Rattle.wf_manifest.specs.declared.calls.Loop.{Loop};
ghost use Rattle.wf_manifest.specs.declared.templates.Body.TheVariants as body;
ghost use Rattle.meaning.specs.Answers.{Sels};
ghost use Rattle.meaning.specs.Lines.{lines_in};
ghost use Rattle.meaning.specs.Pods.{pod_made};
ghost use Rattle.growth.specs.Ticks.{place_of};
ghost use Rattle.tree_change.specs.Entered.{IsRunning};
ghost use Rattle.tree_change.specs.Changes.{IfGiven, TopChanges, CallChanges, OneChanges, TemplateChanges, StepsChange, GroupChanges, DagChanges, LoopChanges};
ghost use Rattle.dag_plan.specs.Plans.{IsPlan};
ghost use Rattle.tree_walk.specs.Index.{IsReady};
ghost use Rattle.tree_walk.specs.Planned.{MayWalk};

use crate::leaf::{
    has_hook, is_running, is_uncached, is_unlocked, item_at, place_of, pod_state, retried_state,
    split,
};
use base_types::{Memory, Text};
use dag_plan::DagPlan;
use dag_stays::{call_of_task, is_unseen};
use meaning::Place;
use recorded::Recorded;
use tree_state::State;
use tree_types::Sel;
use tree_walk::{Named, Positions, find_template};
use wf_manifest::{Body, Call, Dag, Group, Groups, Manifest, Template};

// A manifest, where its templates stand, with the plans of its DAGs, and what is recorded of it together with the fact.
pub(crate) struct Change<'a, R> {
    pub(crate) manifest: &'a Manifest,
    pub(crate) positions: &'a Positions,
    pub(crate) recorded: &'a R,
}

impl<R> Drop for Change<'_, R> {
    fn drop(self) {
        let Change {
            manifest: _,
            positions: _,
            recorded: _,
        } = self;
    }
}

/// What the entrypoint or the exit handler makes once one fact more is recorded, by what it made before. `rest` is what the
/// path of the fact has behind the node of the entrypoint or the exit handler.
///
/// There is none where more may change than the nodes on the way to the fact: where a call below ends with it that others
/// wait for, and in some forms of call.
pub fn changed_top<R: Recorded>(
    manifest: &Manifest,
    positions: &Positions,
    recorded: &R,
    old: &State,
    template: &Text,
    rest: &[Sel],
) -> Result<Option<State>, Memory>
    requires { IsReady manifest.now positions.now }
    ensures { TopChanges manifest.now (R.answers recorded.now) old.now rest.now result
        template.now }
{
    let change = Change {
        manifest,
        positions,
        recorded,
    };
    if !is_running(old) {
        return Ok(None);
    }
    match find_template(manifest, positions, template) {
        None => Ok(None),
        Some(named) => change.template(old, named, rest),
    }
}

impl<R: Recorded> Change<'_, R> {
    #[cycle(change)]
    pub(crate) fn call(
        &self,
        old: &State,
        call: &Call,
        rest: &[Sel],
    ) -> Result<Option<State>, Memory>
        requires { IsReady self.now.manifest.now self.now.positions.now }
        ensures { CallChanges self.now.manifest.now (R.answers self.now.recorded.now) old.now rest.now result call.now }
    {
        if !is_running(old) {
            return Ok(None);
        }
        let Some(_) = &call.each else {
            return self.one(old, call, rest);
        };
        let Some((first, others)) = split(rest) else {
            return Ok(None);
        };
        let Sel::Item(i) = first else {
            return Ok(None);
        };
        self.item(old, call, i, others)
    }

    // A looped call whose item changes.
    #[cycle(change)]
    fn item(&self, old: &State, call: &Call, i: u32, rest: &[Sel]) -> Result<Option<State>, Memory>
        requires { IsReady self.now.manifest.now self.now.positions.now }
        ensures { (l : Loop) → LoopChanges self.now.manifest.now (R.answers self.now.recorded.now) old.now rest.now result call.now l i }
    {
        let Some(item) = old.call_at(i as usize) else {
            return Ok(None);
        };
        if item.is_finished() {
            return Ok(None);
        }
        let Some(new) = self.one(item, call, rest)? else {
            return Ok(None);
        };
        let state = old.with_item(i as usize, new)?;
        if state.all_finished() {
            return Ok(None);
        }
        Ok(Some(state))
    }

    // A call without a loop, or one item of a call. An exit hook that now runs is not among what it made before.
    #[cycle(change)]
    fn one(&self, old: &State, call: &Call, rest: &[Sel]) -> Result<Option<State>, Memory>
        requires { IsReady self.now.manifest.now self.now.positions.now }
        ensures { OneChanges self.now.manifest.now (R.answers self.now.recorded.now) old.now rest.now result call.now }
    {
        if !is_running(old) {
            return Ok(None);
        }
        let Some(named) = find_template(self.manifest, self.positions, &call.template) else {
            return Ok(None);
        };
        let Some(new) = self.template(old, named, rest)? else {
            return Ok(None);
        };
        if has_hook(call, new.phase()) {
            return Ok(None);
        }
        Ok(Some(new))
    }

    // A template's node that runs.
    #[cycle(change)]
    fn template(&self, old: &State, named: Named<'_>, rest: &[Sel]) -> Result<Option<State>, Memory>
        requires ready { IsReady self.now.manifest.now self.now.positions.now }
        requires walkable { MayWalk named }
        requires runs { IsRunning old.now }
        ensures { TemplateChanges self.now.manifest.now (R.answers self.now.recorded.now) old.now rest.now result named.entry.template.now }
    {
        match (&named.template.body, named.plan) {
            (Body::Pod, _) => self.pod(old, named.template),
            (Body::Steps(groups), _) => self.steps(old, groups, rest),
            (Body::Dag(dag), Some(plan)) => self.dag(old, dag, plan, rest),
            (Body::Dag(_), None) => unreachable!(),
            (Body::Suspend(_), _) => Ok(None),
        }
    }

    // A pod of which the cache is not asked, at the place of the node before it.
    fn pod(&self, old: &State, template: &Template) -> Result<Option<State>, Memory>
        requires runs { IsRunning old.now }
        requires form { template.now.body ≡ body.Pod }
        requires fits { IsTrue (retry_fits template.now.retry) }
        ensures { (rest : Sels) → TemplateChanges self.now.manifest.now (R.answers self.now.recorded.now) old.now rest result template.now }
    {
        if !is_uncached(template) {
            return Ok(None);
        }
        let place = place_of(old.node())?;
        if !is_unlocked(self.recorded, &place, template) {
            return Ok(None);
        }
        let Some(retry) = &template.retry else {
            return pod_state(self.recorded, place, &template.outputs);
        };
        retried_state(self.recorded, place, &template.outputs, retry)
    }

    #[cycle(change)]
    fn steps(&self, old: &State, groups: &Groups, rest: &[Sel]) -> Result<Option<State>, Memory>
        requires { IsReady self.now.manifest.now self.now.positions.now }
        ensures { StepsChange self.now.manifest.now (R.answers self.now.recorded.now) old.now rest.now result groups.now }
    {
        let Some((first, others)) = split(rest) else {
            return Ok(None);
        };
        let Sel::Group(i) = first else {
            return Ok(None);
        };
        let Some(group) = old.call_at(i as usize) else {
            return Ok(None);
        };
        let Some(calls) = item_at(groups, i as usize) else {
            return Ok(None);
        };
        if !is_running(group) {
            return Ok(None);
        }
        let Some(new) = self.group(group, calls, others)? else {
            return Ok(None);
        };
        if !is_running(&new) {
            return Ok(None);
        }
        Ok(Some(old.with_call(i as usize, new)?))
    }

    // A group that runs on, though a member of it may end.
    #[cycle(change)]
    fn group(&self, old: &State, calls: &Group, rest: &[Sel]) -> Result<Option<State>, Memory>
        requires ready { IsReady self.now.manifest.now self.now.positions.now }
        requires runs { IsRunning old.now }
        ensures { GroupChanges self.now.manifest.now (R.answers self.now.recorded.now) old.now rest.now result calls.now }
    {
        let Some((first, others)) = split(rest) else {
            return Ok(None);
        };
        let Sel::Step(j) = first else {
            return Ok(None);
        };
        let Some(member) = old.call_at(j as usize) else {
            return Ok(None);
        };
        let Some(call) = item_at(calls, j as usize) else {
            return Ok(None);
        };
        let Some(new) = self.call(member, call, others)? else {
            return Ok(None);
        };
        let state = old.with_call(j as usize, new)?;
        if state.all_finished() {
            return Ok(None);
        }
        Ok(Some(state))
    }

    // A DAG that runs on, and of which no other task sees what one makes: that runs on, or ends where none waits for it.
    #[cycle(change)]
    fn dag(
        &self,
        old: &State,
        dag: &Dag,
        plan: &DagPlan,
        rest: &[Sel],
    ) -> Result<Option<State>, Memory>
        requires ready { IsReady self.now.manifest.now self.now.positions.now }
        requires plan { IsPlan dag.now plan.now }
        ensures { DagChanges self.now.manifest.now (R.answers self.now.recorded.now) old.now rest.now result dag.now }
    {
        let Some((first, others)) = split(rest) else {
            return Ok(None);
        };
        let Sel::Task(j) = first else {
            return Ok(None);
        };
        let Some(task) = item_at(&dag.tasks, j as usize) else {
            return Ok(None);
        };
        let Some((at, made)) = call_of_task(old, j) else {
            return Ok(None);
        };
        if made.is_finished() {
            return Ok(None);
        }
        if !self.has_begun(dag, made) {
            return Ok(None);
        }
        let Some(new) = self.call(made, &task.call, others)? else {
            return Ok(None);
        };
        if !is_unseen(dag, plan, task, j as usize, &new) {
            return Ok(None);
        }
        let state = old.with_call(at, new)?;
        if state.all_finished() {
            return Ok(None);
        }
        Ok(Some(state))
    }

    // Whether nothing keeps a task from its beginning, by what it made before.
    pub(crate) fn has_begun(&self, dag: &Dag, task: &State) -> bool
        ensures { result ≡ (not dag.now.fail_fast || (R.answers self.now.recorded.now).begun task.now.own.node.path.sels) }
    {
        !dag.fail_fast || self.recorded.begun(&task.node().path.sels)
    }
}
