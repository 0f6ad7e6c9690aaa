//! What a pod leaves behind.

ghost use Rattle.std.specs.Prelude.{IsTrue};
ghost use Rattle.tree_types.specs.Phases.{is_end};

use crate::Phase;
use base_types::{List, Text};

/// A name and a value.
#[derive(Debug, PartialEq, Eq, Drop)]
pub struct Param {
    pub name: Text,
    pub value: Text,
}

/// A list of parameters.
pub type Params = List<Param>;

/// How a pod ended: Succeeded, Failed or Error, from the tick `begin` to the tick `finish`.
#[derive(Debug, Drop)]
pub struct Outcome {
    pub phase: Phase,
    /// Whether an Error is one that a retry of transient errors tries again.
    pub transient: bool,
    pub result: Option<Text>,
    pub params: Params,
    pub begin: u64,
    pub finish: u64,
    pub ghost ended: { IsTrue (is_end phase) },
}

/// What a node hands on: `outputs.result` and `outputs.parameters`.
#[derive(Debug, Drop)]
pub struct Outputs {
    pub result: Option<Text>,
    pub params: Params,
}
