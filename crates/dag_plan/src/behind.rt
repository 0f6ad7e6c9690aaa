//! Which rows name a place.

ghost use Rattle.std.specs.Prelude.{◌≡◌, ℕ, ◌<◌, [], length, replicate, get_or, IfOk, OnOk};
ghost use Rattle.std.specs.List.{All};
ghost use Rattle.task_order.specs.Orders.{AreWithin};
ghost use Rattle.dag_plan.specs.Plans.{rows_with};
ghost use Rattle.dag_plan.specs.Inside.Behind as spec;

use base_types::{List, Memory};
use std::alloc::Global;

fn no_lists(alloc: Global, count: usize) -> Result<Vec<List<usize>>, Memory>
    ensures { IfOk result (λ lists. lists.items ≡ replicate count []) }
{
    let mut lists = Vec::with_capacity(alloc, count)?;
    for _ in 0..count {
        lists.push(List::new(alloc))?;
    }
    Ok(lists)
}

fn ends_with(items: &[usize], number: usize) -> bool
    ensures { result ≡ spec.ends_with items.now number }
{
    !items.is_empty() && items[items.len() - 1] == number
}

// A row may name a place twice: its number is added once, since rows are gone through one after the other.
fn add_last(list: &mut List<usize>, number: usize) -> Result<(), Memory>
    ensures { OnOk result (list.new ≡ spec.with_last list.old number) }
{
    if !ends_with(list.as_slice(), number) {
        list.push(number)?;
    }
    Ok(())
}

fn note(lists: &mut Vec<List<usize>>, place: usize, number: usize) -> Result<(), Memory>
    requires { place < length lists.old.items }
    ensures { OnOk result (lists.new.items ≡ spec.noted number lists.old.items place) }
{
    add_last(&mut lists[place], number)
}

fn note_row(lists: &mut Vec<List<usize>>, row: &[usize], number: usize) -> Result<(), Memory>
    requires { All (λ p. p < length lists.old.items) row.now }
    ensures { OnOk result (lists.new.items ≡ spec.row_noted number lists.old.items row.now) }
{
    for i in 0..row.len() {
        note(lists, row[i], number)?;
    }
    Ok(())
}

/// For each place the positions of the rows in which it stands, each once and in their order. The work grows as the rows and
/// their places.
pub(crate) fn behind_of(alloc: Global, rows: &[List<usize>]) -> Result<List<List<usize>>, Memory>
    requires { AreWithin rows.now }
    ensures long { IfOk result (λ behind. length behind ≡ length rows.now) }
    ensures each { IfOk result (λ behind.
        (p : ℕ) → p < length rows.now → get_or behind p [] ≡ rows_with p 0 rows.now) }
{
    let mut lists = no_lists(alloc, rows.len())?;
    for i in 0..rows.len() {
        note_row(&mut lists, rows[i].as_slice(), i)?;
    }
    Ok(List::from_vec(lists))
}
