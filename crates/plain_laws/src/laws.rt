//! The law, the contract of a function that does nothing.

ghost use Rattle.plain_laws.specs.PlainTrees.{PlainRunsAsPlanned};

/// At the end of a run the tree of each plain workflow of the document that is not full is the one that the planned outcomes give,
/// whatever schedule and other workflows there were.
pub fn plain_runs_as_planned()
    ensures { PlainRunsAsPlanned }
{}
