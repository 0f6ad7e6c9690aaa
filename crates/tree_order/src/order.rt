//! The order of paths, in which the nodes of a tree stand.

ghost use Rattle.std.specs.Prelude.{◌≡◌};
ghost use Rattle.tree_types.specs.Places.{sel_eq};
ghost use Rattle.tree_order.specs.Order.{sel_before, path_before};

use tree_types::Sel;

// Whether of two children of a node the one stands before the other.
fn comes_first(sel: Sel, other: Sel) -> bool
    ensures { result ≡ sel_before sel other }
{
    match (sel, other) {
        (Sel::Group(number), Sel::Group(other)) => number < other,
        (Sel::Step(number), Sel::Step(other)) => number < other,
        (Sel::Task(number), Sel::Task(other)) => number < other,
        (Sel::Item(number), Sel::Item(other)) => number < other,
        (Sel::Attempt(number), Sel::Attempt(other)) => number < other,
        (Sel::Exit, _) => false,
        (_, Sel::Exit) => true,
        _ => false,
    }
}

fn is_same(sel: Sel, other: Sel) -> bool
    ensures { result ≡ sel_eq sel other }
{
    sel == other
}

/// Whether a path stands before another.
pub fn is_before(path: &[Sel], other: &[Sel]) -> bool
    ensures { result ≡ path_before path.now other.now }
{
    for position in 0..other.len() {
        let Some(sel) = path.get(position) else {
            return true;
        };
        let beside = other[position];
        if !is_same(*sel, beside) {
            return comes_first(*sel, beside);
        }
    }
    false
}
