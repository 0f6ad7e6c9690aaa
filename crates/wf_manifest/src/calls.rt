//! Calls of templates: steps, tasks and exit hooks, with their arguments and loops.

use crate::Json;
use base_types::{List, Names, Text};
use depends_expr::Depends;
use tag_text::TagText;

/// An argument (field reference, `Parameter` of `Arguments`).
#[derive(Debug, Drop)]
pub struct Argument {
    pub name: Text,
    pub value: TagText,
}

/// A list of arguments.
pub type Arguments = List<Argument>;

/// A loop over items (field reference, `withItems`, `withParam` and `withSequence` of `WorkflowStep` and `DAGTask`).
#[derive(Debug, Drop)]
pub enum Loop {
    /// The JSON list as it was read.
    Items(Json),
    /// A text that says a JSON list.
    Param(TagText),
    /// A row of numbers (field reference, `Sequence`); of `count` and `end` one at the most.
    Sequence {
        count: Option<TagText>,
        start: Option<TagText>,
        end: Option<TagText>,
        format: Option<TagText>,
    },
}

/// The failures that do not count against what stands above (field reference, `ContinueOn`).
#[derive(Clone, Copy, Debug)]
pub struct ContinueOn {
    pub failed: bool,
    pub error: bool,
}

/// An exit hook (field reference, `LifecycleHook`). `short` says that it was given by `onExit`.
#[derive(Debug, Drop)]
pub struct Hook {
    pub template: Text,
    pub arguments: Arguments,
    pub short: bool,
}

/// A step, or what a task has in common with one (field reference, `WorkflowStep`).
#[derive(Debug, Drop)]
pub struct Call {
    pub name: Text,
    pub template: Text,
    pub arguments: Arguments,
    pub when: Option<TagText>,
    pub each: Option<Loop>,
    pub continue_on: Option<ContinueOn>,
    pub exit: Option<Hook>,
}

/// Steps that run side by side.
pub type Group = List<Call>;

/// Groups of steps that run one after the other.
pub type Groups = List<Group>;

/// A task of a DAG (field reference, `DAGTask`). `dependencies` are names of tasks.
#[derive(Debug, Drop)]
pub struct Task {
    pub call: Call,
    pub depends: Option<Depends>,
    pub dependencies: Option<Names>,
}

/// A list of tasks.
pub type Tasks = List<Task>;

/// A DAG (field reference, `DAGTemplate`). `targets` is empty where `target` is absent.
#[derive(Debug, Drop)]
pub struct Dag {
    pub targets: Names,
    pub fail_fast: bool,
    pub tasks: Tasks,
}
