//! The targets of a DAG.

ghost use Rattle.std.specs.Prelude.{◌≡◌, length, replicate, false, fold, IfOk};
ghost use Rattle.task_order.specs.Orders.{places, AreWithin};
ghost use Rattle.dag_plan.specs.Inside.Marks as spec;

use crate::marks::{marks_of, unmarked};
use base_types::{List, Memory, Text};
use std::alloc::Global;
use task_order::{NameTable, places_named};

// The places that stand in no row.
fn last_places(alloc: Global, rows: &[List<usize>]) -> Result<List<usize>, Memory>
    requires { AreWithin rows.now }
    ensures { IfOk result (λ found. found ≡ spec.last_places rows.now) }
{
    let marks = marks_of(alloc, rows)?;
    unmarked(alloc, marks.as_slice())
}

/// The places of the targets: of those that are named, else of those that stand in no row.
pub(crate) fn target_places(
    alloc: Global,
    table: &NameTable<'_>,
    rows: &[List<usize>],
    named: &[Text],
) -> Result<List<usize>, Memory>
    requires { AreWithin rows.now }
    ensures { IfOk result (λ found. found ≡ spec.target_places table.now rows.now named.now) }
{
    if named.is_empty() {
        last_places(alloc, rows)
    } else {
        places_named(alloc, table, named)
    }
}
