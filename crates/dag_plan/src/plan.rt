//! How the tasks of a DAG are gone through.

ghost use Rattle.std.specs.Prelude.{◌≡◌, ℕ, ◌<◌, length, IfOk, IsTrue, slice_get, Some};
ghost use Rattle.base_types.specs.Names.{all_differ};
ghost use Rattle.wf_manifest.specs.declared.templates.Body.TheVariants as body;
ghost use Rattle.wf_manifest.specs.Valid.{task_names, tasks_are_there, HasRank};
ghost use Rattle.dag_plan.specs.Plans.{IsPlan};

use crate::behind::behind_of;
use crate::order::places_in_order;
use crate::spread::marks_found;
use crate::targets::target_places;
use base_types::{List, Memory};
use std::alloc::Global;
use task_order::{rows_of, table_of};
use wf_manifest::Dag;

/// How the tasks of a DAG are gone through: their positions in an order in which each stands behind those that it waits for,
/// whether each is a target or an ancestor of one, the positions of those that each waits for, those of the tasks that wait
/// for each, in their order, and those of the targets. None of it changes while the tasks run.
#[derive(Debug, Drop)]
pub struct DagPlan {
    pub order: List<usize>,
    pub meant: List<bool>,
    pub rows: List<List<usize>>,
    pub behind: List<List<usize>>,
    pub targets: List<usize>,
}

impl DagPlan {
    /// The plan of a DAG whose tasks have names of their own and wait for each other, but not in a circle. The work grows as
    /// the tasks and the names that they wait for.
    pub fn new(alloc: Global, dag: &Dag) -> Result<DagPlan, Memory>
        requires ranked { HasRank dag.now.tasks }
        requires differ { IsTrue (all_differ (task_names dag.now)) }
        requires there { IsTrue (tasks_are_there (body.Dag dag.now)) }
        ensures { IfOk result (λ plan. IsPlan dag.now plan) }
    {
        let tasks = dag.tasks.as_slice();
        let table = table_of(alloc, tasks)?;
        let rows = rows_of(alloc, &table, tasks)?;
        let order = places_in_order(alloc, rows.as_slice())?;
        let targets = target_places(alloc, &table, rows.as_slice(), dag.targets.as_slice())?;
        let meant = marks_found(alloc, rows.as_slice(), order.as_slice(), targets.as_slice())?;
        let behind = behind_of(alloc, rows.as_slice())?;
        Ok(DagPlan {
            order,
            meant: List::from_vec(meant),
            rows,
            behind,
            targets,
        })
    }
}
