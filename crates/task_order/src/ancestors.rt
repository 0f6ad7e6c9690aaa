//! The ancestors of tasks.

ghost use Rattle.std.specs.Prelude.{◌≡◌, ◌↔◌, IfOk, IfSome, IfNone, IsTrue, Some, slice_get};
ghost use Rattle.wf_manifest.specs.declared.calls.Task.{Task as OneTask};
ghost use Rattle.wf_manifest.specs.Valid.{HasRank};
ghost use Rattle.task_order.specs.Ancestors.{IsAncestor, HasOwnAncestor};

use crate::graph::graph_of;
use crate::names::NameTable;
use crate::ordering::order_of;
use crate::places::{Places, places_waited_for};
use base_types::Memory;
use std::alloc::Global;
use std::marker::Model;
use wf_manifest::Task;

/// Which task of a DAG waits, in the end, for which. Contracts see it as the tasks.
#[derive(Drop)]
pub struct Ancestors<'a> {
    tasks: &'a [Task],
    table: NameTable<'a>,
    rows: Vec<Places>,
}

impl<'a> Model for Ancestors<'a> {
    ghost use Rattle.std.specs.Prelude.{List as Seq};
    ghost use Rattle.wf_manifest.specs.declared.calls.Task.{Task as OneTask};
    ghost use Rattle.task_order.specs.Inside.Rows.{AreAncestors};

    ghost Value = { Seq OneTask };

    ghost use Rattle.std.specs.Coded.{codes};
    ghost use Rattle.depends_expr.specs.Expression.{expression_code};
    ghost use Rattle.wf_manifest.specs.JsonCode.{json_code};

    ghost coded = { Prim.hlevel (codes, expression_code, json_code) };

    ghost view = { λ a. a.tasks.now };

    ghost invariant = { λ a. AreAncestors a.tasks.now a.table a.rows.items };
}

impl<'a> Ancestors<'a> {
    /// The ancestors of these tasks; `None` where they wait for each other in a circle.
    pub fn new(alloc: Global, tasks: &'a [Task]) -> Result<Option<Ancestors<'a>>, Memory>
        ensures some { IfOk result (λ made.
            IfSome made (λ ancestors. ancestors ≡ tasks.entry.now)) }
        // Where they are given, each task stands higher than those that it waits for, so that none is its own ancestor.
        ensures ranked { IfOk result (λ made. IfSome made (λ ancestors. HasRank tasks.entry.now)) }
        // Where they are not, some task is its own ancestor.
        ensures none { IfOk result (λ made. IfNone made (HasOwnAncestor tasks.entry.now)) }
    {
        let graph = graph_of(alloc, tasks)?;
        match order_of(alloc, graph.waits.as_slice())? {
            Some(order) => {
                let rows = places_waited_for(alloc, graph.waits.as_slice(), order.as_slice())?;
                Ok(Some(Ancestors {
                    tasks,
                    table: graph.table,
                    rows,
                }))
            }
            None => Ok(None),
        }
    }

    /// Whether a task of this name is an ancestor of the task at a position from 0, where there is one.
    pub fn is_ancestor(&self, task: usize, name: &str) -> bool
        ensures { (t : OneTask) → slice_get self.now task ≡ Some t →
            IsTrue result ↔ IsAncestor self.now name.now t.call.name }
    {
        match self.tasks.get(task) {
            Some(task) => self.waits_for(task.call.name.as_str(), name),
            None => false,
        }
    }

    /// Whether a task of the one name has an ancestor of the other.
    pub fn waits_for(&self, name: &str, ancestor: &str) -> bool
        ensures { IsTrue result ↔ IsAncestor self.now ancestor.now name.now }
    {
        let Some(place) = self.table.place(name) else {
            return false;
        };
        let Some(wanted) = self.table.place(ancestor) else {
            return false;
        };
        self.rows[place].has(wanted)
    }
}
