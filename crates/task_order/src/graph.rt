//! Tasks by the places of their names, and for each place the places that it waits for.

ghost use Rattle.std.specs.Prelude.{◌≡◌, ◌++◌, ℕ, List as Seq, [], fold, replicate, length, IfOk, OnOk};
ghost use Rattle.depends_expr.specs.Truth.{names_of};
ghost use Rattle.task_order.specs.Orders.{places, waited, row};
ghost use Rattle.task_order.specs.Inside.Graphs.{added, IsGraph};

use crate::names::{NameTable, table_of};
use base_types::{List, Memory, Text};
use depends_expr::Depends;
use std::alloc::Global;
use wf_manifest::Task;

/// The names of tasks, and for each place what the tasks of its name wait for.
#[derive(Drop)]
pub(crate) struct Graph<'a> {
    pub(crate) table: NameTable<'a>,
    pub(crate) waits: Vec<List<usize>>,
}

pub(crate) fn graph_of<'a>(alloc: Global, tasks: &'a [Task]) -> Result<Graph<'a>, Memory>
    ensures { IfOk result (λ graph. IsGraph tasks.entry.now graph.table graph.waits.items) }
{
    let table = table_of(alloc, tasks)?;
    let waits = waits_of(alloc, &table, tasks)?;
    Ok(Graph { table, waits })
}

fn waits_of(
    alloc: Global,
    table: &NameTable<'_>,
    tasks: &[Task],
) -> Result<Vec<List<usize>>, Memory>
    ensures { IfOk result (λ waits.
        waits.items ≡ fold (added table.now) (replicate (length table.now) []) tasks.now) }
{
    let mut waits = none_waits(alloc, table.len())?;
    for i in 0..tasks.len() {
        add_task(table, &tasks[i], &mut waits)?;
    }
    Ok(waits)
}

fn none_waits(alloc: Global, size: usize) -> Result<Vec<List<usize>>, Memory>
    ensures { IfOk result (λ waits. waits.items ≡ replicate size []) }
{
    let mut waits = Vec::with_capacity(alloc, size)?;
    for _ in 0..size {
        waits.push(List::new(alloc))?;
    }
    Ok(waits)
}

// Adds what a task waits for to the row of its name.
fn add_task(table: &NameTable<'_>, task: &Task, waits: &mut Vec<List<usize>>) -> Result<(), Memory>
    requires { length waits.old.items ≡ length table.now }
    ensures { OnOk result (waits.new.items ≡ added table.now waits.old.items task.now) }
{
    if let Some(place) = table.place(task.call.name.as_str()) {
        add_waited(table, task, &mut waits[place])?;
    }
    Ok(())
}

// Adds the places of the names that a task waits for.
pub(crate) fn add_waited(
    table: &NameTable<'_>,
    task: &Task,
    row: &mut List<usize>,
) -> Result<(), Memory>
    ensures { OnOk result (row.new ≡ row.old ++ places table.now (waited task.now)) }
{
    match (&task.depends, &task.dependencies) {
        (Some(depends), _) => add_named(table, depends, row),
        (None, Some(names)) => add_places(table, names.as_slice(), row),
        (None, None) => Ok(()),
    }
}

fn add_named(table: &NameTable<'_>, depends: &Depends, row: &mut List<usize>) -> Result<(), Memory>
    ensures { OnOk result (row.new ≡ row.old ++ places table.now (names_of depends.now)) }
{
    for i in 0..depends.names() {
        if let Some(place) = table.place(depends.name(i)) {
            row.push(place)?;
        }
    }
    Ok(())
}

pub(crate) fn add_places(
    table: &NameTable<'_>,
    names: &[Text],
    row: &mut List<usize>,
) -> Result<(), Memory>
    ensures { OnOk result (row.new ≡ row.old ++ places table.now names.now) }
{
    for i in 0..names.len() {
        if let Some(place) = table.place(names[i].as_str()) {
            row.push(place)?;
        }
    }
    Ok(())
}
