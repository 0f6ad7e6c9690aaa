//! Marks on positions.

ghost use Rattle.std.specs.Prelude.{◌≡◌, ◌<◌, vec_len, length, replicate, false, fold, IfOk};
ghost use Rattle.std.specs.List.{All};
ghost use Rattle.task_order.specs.Orders.{AreWithin};
ghost use Rattle.dag_plan.specs.Inside.Marks as spec;

use base_types::{List, Memory};
use std::alloc::Global;

pub(crate) fn no_marks(alloc: Global, count: usize) -> Result<Vec<bool>, Memory>
    ensures long { IfOk result (λ marks. vec_len marks ≡ count) }
    ensures none { IfOk result (λ marks. marks.items ≡ replicate count false) }
{
    let mut marks = Vec::with_capacity(alloc, count)?;
    for _ in 0..count {
        marks.push(false)?;
    }
    Ok(marks)
}

pub(crate) fn mark(marks: &mut Vec<bool>, places: &[usize])
    requires { All (λ p. p < vec_len marks.old) places.now }
    ensures long { vec_len marks.new ≡ vec_len marks.old }
    ensures marked { marks.new.items ≡ spec.marked marks.old.items places.now }
{
    for i in 0..places.len() {
        marks[places[i]] = true;
    }
}

/// Marks on the places that stand in some row.
pub(crate) fn marks_of(alloc: Global, rows: &[List<usize>]) -> Result<Vec<bool>, Memory>
    requires { AreWithin rows.now }
    ensures { IfOk result (λ marks. marks.items ≡ fold spec.marked (replicate (length rows.now) false) rows.now) }
{
    let mut marks = no_marks(alloc, rows.len())?;
    for i in 0..rows.len() {
        mark(&mut marks, rows[i].as_slice());
    }
    Ok(marks)
}

/// The positions without a mark.
pub(crate) fn unmarked(alloc: Global, marks: &[bool]) -> Result<List<usize>, Memory>
    ensures { IfOk result (λ found. found ≡ spec.unmarked 0 marks.now) }
{
    let mut found = List::new(alloc);
    for i in 0..marks.len() {
        if !marks[i] {
            found.push(i)?;
        }
    }
    Ok(found)
}
