//! Places in order, each behind those that it waits for.

ghost use Rattle.std.specs.Prelude.{ℕ, IfOk, IfSome, IfNone};
ghost use Rattle.task_order.specs.Orders.{AreWithin, Reaches, IsOrder};

use crate::walk::Walk;
use base_types::{List, Memory};
use std::alloc::Global;

/// The places, each once and in order; `None` where one reaches itself.
pub fn order_of(alloc: Global, waits: &[List<usize>]) -> Result<Option<Vec<usize>>, Memory>
    requires { AreWithin waits.now }
    ensures some { IfOk result (λ found. IfSome found (λ order. IsOrder waits.now order.items)) }
    ensures none { IfOk result (λ found. IfNone found ((v : ℕ) × Reaches waits.now v v)) }
{
    let mut walk = Walk::new(alloc, waits.len())?;
    for place in 0..waits.len() {
        if walk.stages[place].is_new() {
            walk.begin(place)?;
            if !walk.run(waits)? {
                return Ok(None);
            }
        }
    }
    Ok(Some(walk.order))
}
