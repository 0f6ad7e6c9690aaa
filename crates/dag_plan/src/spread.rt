//! The targets and their ancestors.

ghost use Rattle.std.specs.Prelude.{◌≡◌, ◌<◌, vec_len, length, if◌then◌else◌, IfOk};
ghost use Rattle.std.specs.List.{All};
ghost use Rattle.task_order.specs.Orders.{AreWithin, IsOrder};
ghost use Rattle.dag_plan.specs.Inside.Marks.{spread, AreFound};

use crate::marks::{mark, no_marks};
use base_types::{List, Memory};
use std::alloc::Global;

fn mark_row(marks: &mut Vec<bool>, rows: &[List<usize>], place: usize)
    requires within { AreWithin rows.now }
    requires long { vec_len marks.old ≡ length rows.now }
    requires place { place < length rows.now }
    ensures long { vec_len marks.new ≡ vec_len marks.old }
    ensures marked { marks.new.items ≡ spread rows.now marks.old.items place }
{
    if marks[place] {
        mark(marks, rows[place].as_slice());
    }
}

/// Marks on the targets and on what they reach, where the places stand in this order.
pub(crate) fn marks_found(
    alloc: Global,
    rows: &[List<usize>],
    order: &[usize],
    targets: &[usize],
) -> Result<Vec<bool>, Memory>
    requires within { AreWithin rows.now }
    requires order { IsOrder rows.now order.now }
    requires targets { All (λ p. p < length rows.now) targets.now }
    ensures { IfOk result (λ marks. AreFound rows.now targets.now marks.items) }
{
    let mut marks = no_marks(alloc, rows.len())?;
    mark(&mut marks, targets);
    let mut left = order.len();
    while left > 0 {
        left -= 1;
        mark_row(&mut marks, rows, order[left]);
    }
    Ok(marks)
}
