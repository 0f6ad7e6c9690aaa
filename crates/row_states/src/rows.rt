//! Rows of calls.

ghost use Rattle.std.specs.Prelude.{◌≡◌, IfOk};
ghost use Rattle.meaning.specs.Lines as lines;

use base_types::{List, Memory};
use tree_state::{Below, Shared};

/// What stands below a node that has these calls, in this order.
pub fn row(states: List<Shared>) -> Result<Below, Memory>
    ensures { IfOk result (λ below. below ≡ lines.row_of states) }
{
    let mut below = Below::new(states.allocator());
    for state in states.into_vec() {
        below.push_shared(state)?;
    }
    Ok(below)
}

// Each of the calls is finished.
pub(crate) fn are_finished(states: &List<Shared>) -> bool
    ensures { result ≡ lines.all_finished states.now }
{
    for i in 0..states.len() {
        if !states.get(i).state().is_finished() {
            return false;
        }
    }
    true
}
