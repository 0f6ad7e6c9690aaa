//! The law of a workflow's lines.

ghost use Rattle.tree_eval.specs.Whole.{LinesAreMeant};

/// The lines of what is made are those of the workflow.
pub fn lines_are_meant()
    ensures { LinesAreMeant }
{}
