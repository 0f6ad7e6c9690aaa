//! The ancestors of the tasks of a DAG, or that they wait for each other in a circle.

ghost use Rattle.std.specs.Prelude.{◌≡◌, ◌||◌, IfOk};
ghost use Rattle.wf_places.specs.Circles as circles;

use base_types::{Memory, Text};
use std::alloc::Global;
use std::marker::Model;
use task_order::Ancestors;
use wf_manifest::Task;

/// What the tasks of a DAG wait for in the end. Contracts see it as the tasks.
#[derive(Drop)]
pub(crate) struct Ancestry<'a> {
    tasks: &'a [Task],
    // None where there is a circle.
    known: Option<Ancestors<'a>>,
}

impl<'a> Model for Ancestry<'a> {
    ghost use Rattle.std.specs.Prelude.{List as Seq};
    ghost use Rattle.wf_manifest.specs.declared.calls.Task.{Task as OneTask};
    ghost use Rattle.std.specs.Coded.{codes};
    ghost use Rattle.depends_expr.specs.Expression.{expression_code};
    ghost use Rattle.wf_manifest.specs.JsonCode.{json_code};
    ghost use Rattle.wf_places.specs.Inside.Ancestry.{IsKnown};

    ghost Value = { Seq OneTask };

    ghost coded = { Prim.hlevel (codes, expression_code, json_code) };

    ghost view = { λ a. a.tasks.now };

    ghost invariant = { λ a. IsKnown a.tasks.now a.known };
}

impl<'a> Ancestry<'a> {
    pub(crate) fn new(alloc: Global, tasks: &'a [Task]) -> Result<Ancestry<'a>, Memory>
        ensures { IfOk result (λ ancestry. ancestry ≡ tasks.entry.now) }
    {
        let known = Ancestors::new(alloc, tasks)?;
        Ok(Ancestry { tasks, known })
    }

    /// Whether some task is its own ancestor.
    #[tactic(auto, using(crate::proofs::Waiting::known_circle))]
    pub(crate) fn has_circle(&self) -> bool
        ensures { result ≡ circles.has_circle self.now }
    {
        self.known.is_none()
    }

    /// Whether the one is an ancestor of the other; always where there is a circle.
    pub(crate) fn is_ancestor(&self, name: &Text, task: &Text) -> bool
        ensures { result
            ≡ (circles.has_circle self.now || circles.is_ancestor self.now name.now task.now) }
    {
        match &self.known {
            None => true,
            Some(known) => known.waits_for(task.as_str(), name.as_str()),
        }
    }
}
