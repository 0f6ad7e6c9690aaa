//! The tasks before a task, and its scope.

ghost use Rattle.std.specs.Prelude.{◌≡◌, ◌∷◌, ◌++◌, ◌<◌, [], suc, length, get_or, IfOk, OnOk};
ghost use Rattle.std.specs.List.{All};
ghost use Rattle.scopes.specs.Values.{HasValuesOf};
ghost use Rattle.task_order.specs.Orders.{AreWithin, IsOrder};
ghost use Rattle.dag_plan.specs.Plans.{IsPlan};
ghost use Rattle.dag_board.specs.Boards.{Fits, name_at, state_at};
ghost use Rattle.dag_board.specs.Turns.{Sees};
ghost use Rattle.dag_board.specs.Inside.Firsts.{firsts};
ghost use Rattle.dag_board.specs.Inside.Befores.{place_in, up_to, ancestors, IsClosed, made_tags, board_tags};

use crate::Board;
use crate::firsts::Firsts;
use base_types::{List, Memory};
use call_nodes::add_tags_of;
use dag_plan::DagPlan;
use growth::laws::rounds_settle;
use scopes::{Scope, Tags};
use std::alloc::Global;
use wf_manifest::Dag;

impl Board {
    // Adds this position, and those of the ancestors of its task. What is there already is there with its ancestors.
    fn add_up_to(&self, plan: &DagPlan, place: usize, found: &mut Firsts) -> Result<(), Memory>
        requires within { AreWithin plan.now.rows }
        requires order { IsOrder plan.now.rows plan.now.order }
        requires stands { length self.now.stands.items ≡ length plan.now.rows }
        requires room { found.old.room ≡ length plan.now.rows }
        requires place { place < length plan.now.rows }
        requires closed { IsClosed plan.now self.now (suc (place_in plan.now.order place)) found.old.list }
        ensures room { OnOk result (found.new.room ≡ found.old.room) }
        ensures list { OnOk result (found.new.list ≡ firsts found.old.list (up_to plan.now self.now place)) }
    {
        if found.has(place) {
            return Ok(());
        }
        found.add(place)?;
        if !self.stands[place].existing {
            return Ok(());
        }
        let row = plan.rows.get(place).as_slice();
        for j in 0..row.len() {
            self.add_up_to(plan, row[j], found)?;
        }
        Ok(())
    }

    // The positions of these tasks and of their ancestors, in the order in which their tags count.
    fn ancestors(&self, alloc: Global, plan: &DagPlan, row: &[usize]) -> Result<List<usize>, Memory>
        requires within { AreWithin plan.now.rows }
        requires order { IsOrder plan.now.rows plan.now.order }
        requires stands { length self.now.stands.items ≡ length plan.now.rows }
        requires row { All (λ p. p < length plan.now.rows) row.now }
        ensures { IfOk result (λ found. found ≡ ancestors plan.now self.now row.now) }
    {
        if row.is_empty() {
            // most tasks of a wide DAG: no mark for each of its tasks
            return Ok(List::new(alloc));
        }
        let mut found = Firsts::new(alloc, self.stands.len())?;
        for j in 0..row.len() {
            self.add_up_to(plan, row[j], &mut found)?;
        }
        Ok(found.into_list())
    }

    pub(crate) fn add_tags(&self, tags: &mut Tags, dag: &Dag, place: usize) -> Result<(), Memory>
        requires fits { Fits dag.now self.now }
        requires place { place < length dag.now.tasks }
        ensures { OnOk result (HasValuesOf tags.new
            (made_tags (name_at dag.now.tasks place) (state_at self.now place) ++ tags.old)) }
    {
        match &self.states[place] {
            None => Ok(()),
            Some(state) => {
                let name = &dag.tasks.get(place).call.name;
                add_tags_of(tags, "tasks.", name, state.state().node())
            }
        }
    }

    // The tags of what the tasks at these positions made.
    pub(crate) fn tags_of(&self, alloc: Global, dag: &Dag, places: &[usize]) -> Result<Tags, Memory>
        requires fits { Fits dag.now self.now }
        requires places { All (λ p. p < length dag.now.tasks) places.now }
        ensures { IfOk result (λ tags. HasValuesOf tags (board_tags dag.now.tasks self.now places.now)) }
    {
        let mut tags = Tags::new(alloc);
        let mut left = places.len();
        while left > 0 {
            left -= 1;
            self.add_tags(&mut tags, dag, places[left])?;
        }
        Ok(tags)
    }

    /// The scope of the task at position `i`, whose turn is next, inside this one: with the tags of the tasks that it depends
    /// on and of their ancestors.
    pub fn scope_before(
        &self,
        alloc: Global,
        dag: &Dag,
        plan: &DagPlan,
        i: usize,
        scope: &Scope,
    ) -> Result<Scope, Memory>
        requires plan { IsPlan dag.now plan.now }
        requires fits { Fits dag.now self.now }
        requires place { i < length dag.now.tasks }
        ensures { IfOk result (λ inner. Sees dag.now plan.now self.now i scope.now inner) }
    {
        rounds_settle();
        let found = self.ancestors(alloc, plan, plan.rows.get(i).as_slice())?;
        let tags = self.tags_of(alloc, dag, found.as_slice())?;
        scope.with(tags)
    }
}
