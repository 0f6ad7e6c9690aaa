//! The law of circles.

ghost use Rattle.std.specs.Prelude.{ℕ, List};
ghost use Rattle.wf_manifest.specs.declared.calls.Task.{Task};
ghost use Rattle.wf_manifest.specs.Valid.{HasRank};
ghost use Rattle.task_order.specs.Ancestors.{IsAncestor};

/// Where each task stands higher than those that it waits for, no task is its own ancestor.
pub fn no_own_ancestor()
    ensures { (tasks : List Task) (name : List ℕ) → HasRank tasks → ¬ (IsAncestor tasks name name) }
{}
