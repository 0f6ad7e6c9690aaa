//! Node trees.

ghost use Rattle.std.specs.Prelude.{◌≡◌, Some};
ghost use Rattle.tree_types.specs.Texts as texts;

use crate::{LockId, Outputs, Path, Phase};
use base_types::{List, Text};
use std::fmt;

/// What a node is of. `Skipped` is the kind of skipped and omitted nodes.
#[derive(Clone, Copy, Debug, PartialEq, Eq)]
pub enum Kind {
    Pod,
    Steps,
    StepGroup,
    DAG,
    TaskGroup,
    Retry,
    Suspend,
    Skipped,
}

impl Kind {
    /// The word of the kind.
    pub fn word(self) -> &'static str
        ensures { result.now ≡ texts.kind_text self }
    {
        match self {
            Kind::Pod => "Pod",
            Kind::Steps => "Steps",
            Kind::StepGroup => "StepGroup",
            Kind::DAG => "DAG",
            Kind::TaskGroup => "TaskGroup",
            Kind::Retry => "Retry",
            Kind::Suspend => "Suspend",
            Kind::Skipped => "Skipped",
        }
    }
}

impl fmt::Display for Kind {
    ghost output = { λ kind. Some (texts.kind_text kind) };

    fn fmt<W: fmt::Write>(&self, f: &mut fmt::Formatter<W>) -> fmt::Result {
        f.write_str(self.word())
    }
}

/// What is said of a node beside its phase.
#[derive(Debug, Drop)]
pub enum Note {
    None,
    WhenFalse,
    DependsFalse,
    NoItems,
    Waiting(LockId),
    /// The cache in which an answer is looked for.
    Looking(Text),
    /// The cache and the key of a recorded answer.
    Hit(Text, Text),
    Carried,
    TooDeep,
    /// The first tag without a value.
    Unresolved(Text),
    BadWhen,
    NotNumbers,
    NotList,
    BadItem,
    BadNumber,
    BadFormat,
    TooManyItems,
    BadDuration,
    /// The declared output parameter that is missing.
    NoOutput(Text),
}

/// A node of a tree. Its `depth` is 1 for the root and the exit handler, and one more than that of the node above it.
#[derive(Debug, Drop)]
pub struct Node {
    pub path: Path,
    pub name: Text,
    pub kind: Kind,
    pub phase: Phase,
    pub note: Note,
    pub outputs: Outputs,
    pub depth: u32,
}

/// A list of nodes.
pub type Nodes = List<Node>;

/// The nodes of a workflow in tree order: a node, its children in the manifest's order, its exit hook.
#[derive(Debug, Drop)]
pub struct Tree {
    pub nodes: Nodes,
}
