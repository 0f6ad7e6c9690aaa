//! What is known of the tasks of a DAG from before a fact was recorded below one of them.

ghost use Rattle.std.specs.Prelude.{◌≡◌, ◌<◌, length, slice_get, IfOk, IfSome, Some};
ghost use Rattle.dag_plan.specs.Plans.{IsPlan};
ghost use Rattle.dag_stays.specs.Knowing.{Knows, Stays, Ran};

use crate::sought::by_task;
use crate::staying::{all_marked, is_marked, unmoved};
use base_types::{List, Memory};
use dag_plan::DagPlan;
use std::alloc::Global;
use tree_state::Shared;
use tree_types::Phase;
use wf_manifest::Dag;

/// What the tasks made before a fact was recorded below the one at position `j`, and marks on those that stay.
#[derive(Debug, Drop)]
pub struct Were {
    pub(crate) made: Vec<Option<Shared>>,
    pub(crate) marks: List<bool>,
    pub(crate) j: usize,
}

impl Were {
    /// By the calls that stood below the DAG, whose path has so many selectors.
    pub fn new(
        alloc: Global,
        dag: &Dag,
        plan: &DagPlan,
        calls: &List<Shared>,
        depth: usize,
        j: usize,
    ) -> Result<Were, Memory>
        requires plan { IsPlan dag.now plan.now }
        ensures { IfOk result (Knows dag.now plan.now calls.now depth j) }
    {
        let made = by_task(alloc, calls, depth, dag.tasks.len())?;
        let marks = unmoved(alloc, plan.rows.as_slice(), plan.order.as_slice(), j)?;
        Ok(Were { made, marks, j })
    }

    fn made_at(&self, i: usize) -> Option<&Shared>
        ensures { IfSome result (λ old. slice_get self.now.made.items i ≡ Some (Some old.now)) }
    {
        match self.made.as_slice().get(i) {
            Some(Some(old)) => Some(old),
            _ => None,
        }
    }

    /// What the task at position `i` made, and makes again, as it does not stand behind the one at position `j`.
    pub fn stays(&self, i: usize) -> Option<&Shared>
        ensures { IfSome result (λ old. Stays self.now i old.now) }
    {
        if !is_marked(self.marks.as_slice(), i) {
            return None;
        }
        self.made_at(i)
    }

    /// What the task at position `i` made, if it is the one at position `j` and ran.
    pub fn ran(&self, plan: &DagPlan, i: usize) -> Option<&Shared>
        requires place { i < length plan.now.rows }
        ensures { IfSome result (λ old. Ran plan.now self.now i old.now) }
    {
        if i != self.j {
            return None;
        }
        if !all_marked(self.marks.as_slice(), plan.rows.get(i).as_slice()) {
            return None;
        }
        let old = self.made_at(i)?;
        match old.state().phase() {
            Phase::Running => Some(old),
            _ => None,
        }
    }
}
