//! What becomes of a task in its turn.

ghost use Rattle.std.specs.Prelude.{◌<◌, length, IfOk};
ghost use Rattle.dag_plan.specs.Plans.{IsPlan};
ghost use Rattle.dag_board.specs.Boards.{Fits};
ghost use Rattle.dag_board.specs.Turns.{Tells};

use crate::Board;
use base_types::Memory;
use dag_plan::DagPlan;
use dag_template::{Verdict, judge};
use growth::laws::rounds_settle;
use std::alloc::Global;
use wf_manifest::Dag;

impl Board {
    /// What becomes of the task at position `i`, whose turn is next: a task that is neither a target nor an ancestor of one
    /// waits.
    pub fn verdict(
        &self,
        alloc: Global,
        dag: &Dag,
        plan: &DagPlan,
        i: usize,
    ) -> Result<Verdict, Memory>
        requires plan { IsPlan dag.now plan.now }
        requires fits { Fits dag.now self.now }
        requires place { i < length dag.now.tasks }
        ensures { IfOk result (Tells dag.now plan.now self.now i) }
    {
        rounds_settle();
        if !*plan.meant.get(i) {
            return Ok(Verdict::Waits);
        }
        judge(
            alloc,
            dag.tasks.as_slice(),
            self.stands.as_slice(),
            dag.tasks.get(i),
            plan.rows.get(i).as_slice(),
        )
    }
}
