//! The law, the contract of a function that does nothing.

ghost use Rattle.tree_order.specs.Order.{NodesInOrder};

/// The nodes of a tree stand in the order of their paths.
pub fn nodes_in_order()
    ensures { NodesInOrder }
{}
