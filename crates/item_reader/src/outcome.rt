//! How a pod is planned to end.

ghost use Rattle.std.specs.Prelude.{IsTrue};
ghost use Rattle.tree_types.specs.Phases.{is_end};

use base_types::{Memory, Text, TryCopy};
use tree_types::{Params, Phase};

/// How a pod will end: Succeeded, Failed or Error, after so many seconds.
#[derive(Debug, Drop)]
pub struct PlannedOutcome {
    pub phase: Phase,
    pub result: Option<Text>,
    /// In the order of their names.
    pub params: Params,
    /// Whether an Error is one that a retry of transient errors tries again.
    pub transient: bool,
    pub seconds: u64,
    pub ghost ended: { IsTrue (is_end phase) },
}

impl TryCopy for PlannedOutcome {
    fn copy(&self) -> Result<PlannedOutcome, Memory> {
        Ok(PlannedOutcome {
            phase: self.phase,
            result: self.result.copy()?,
            params: self.params.copy()?,
            transient: self.transient,
            seconds: self.seconds,
        })
    }
}
