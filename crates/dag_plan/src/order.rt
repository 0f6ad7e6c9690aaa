//! An order in which each task stands behind those that it waits for.

ghost use Rattle.std.specs.Prelude.{ℕ, IfOk};
ghost use Rattle.task_order.specs.Orders.{AreWithin, Reaches, IsOrder};

use base_types::{List, Memory};
use std::alloc::Global;
use task_order::order_of;

/// The places in an order, where none reaches itself.
pub(crate) fn places_in_order(alloc: Global, rows: &[List<usize>]) -> Result<List<usize>, Memory>
    requires within { AreWithin rows.now }
    requires no_circle { (p : ℕ) → ¬ (Reaches rows.now p p) }
    ensures { IfOk result (λ order. IsOrder rows.now order) }
{
    match order_of(alloc, rows)? {
        Some(order) => Ok(List::from_vec(order)),
        None => unreachable!(),
    }
}
