//! The places that each task waits for.

ghost use Rattle.std.specs.Prelude.{◌≡◌, map, IfOk};
ghost use Rattle.task_order.specs.Orders.{places, waited};

use crate::graph::{add_places, add_waited};
use crate::names::NameTable;
use base_types::{List, Memory, Text};
use std::alloc::Global;
use wf_manifest::Task;

fn row_of(alloc: Global, table: &NameTable<'_>, task: &Task) -> Result<List<usize>, Memory>
    ensures { IfOk result (λ row. row ≡ places table.now (waited task.now)) }
{
    let mut row = List::new(alloc);
    add_waited(table, task, &mut row)?;
    Ok(row)
}

/// For each task the places of the names that it waits for. A name of a `depends` stands once, by its first place there.
pub fn rows_of(
    alloc: Global,
    table: &NameTable<'_>,
    tasks: &[Task],
) -> Result<List<List<usize>>, Memory>
    ensures { IfOk result (λ rows. rows ≡ map (λ t. places table.now (waited t)) tasks.now) }
{
    let mut rows = List::with_capacity(alloc, tasks.len())?;
    for i in 0..tasks.len() {
        rows.push(row_of(alloc, table, &tasks[i])?)?;
    }
    Ok(rows)
}

/// The places of names.
pub fn places_named(
    alloc: Global,
    table: &NameTable<'_>,
    names: &[Text],
) -> Result<List<usize>, Memory>
    ensures { IfOk result (λ found. found ≡ places table.now names.now) }
{
    let mut found = List::new(alloc);
    add_places(table, names, &mut found)?;
    Ok(found)
}
