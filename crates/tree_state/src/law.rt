//! The law of counting.

ghost use Rattle.tree_state.specs.CountsNodes.{CountsNodes};

/// The nodes of what a call makes are as many as are counted.
pub fn counts_nodes()
    ensures { CountsNodes }
{}
