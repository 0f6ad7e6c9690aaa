//! Pods, as the store keeps them.

ghost use Rattle.std.specs.Prelude.{◌≡◌, IfOk, option_copied};
ghost use Rattle.law.specs.Contents as law;

use base_types::{Memory, Shared, TryCopy};
use std::marker::Model;
use tree_types::{Outcome, Path};

/// The pod of a path, made at a tick, and its outcome once it ended. Contracts see it as the law has it.
#[derive(Drop)]
pub struct PodObject {
    path: Path,
    begin: u64,
    outcome: Option<Shared<Outcome>>,
}

impl Model for PodObject {
    ghost use Rattle.law.specs.Contents.{PodObject as Pod};
    ghost use Rattle.wf_object.specs.ContentCode.{pod_code};

    ghost Value = { Pod };

    ghost coded = { pod_code };

    ghost view = { λ pod. record { path = pod.path; begin = pod.begin; outcome = pod.outcome } };
}

impl PodObject {
    /// A pod that runs.
    pub fn begun(path: Path, begin: u64) -> PodObject
        ensures { result ≡ law.begun_pod path begin }
    {
        PodObject {
            path,
            begin,
            outcome: None,
        }
    }

    /// The pod with this outcome.
    pub fn finished(&self, outcome: Shared<Outcome>) -> Result<PodObject, Memory>
        ensures { IfOk result (λ pod. pod ≡ law.finished self.now outcome) }
    {
        Ok(PodObject {
            path: self.path.copy()?,
            begin: self.begin,
            outcome: Some(outcome),
        })
    }

    /// The path of its node.
    pub fn path(&self) -> &Path
        ensures { result.now ≡ self.now.path }
    {
        &self.path
    }

    /// The tick at which it was made.
    pub fn begin(&self) -> u64
        ensures { result ≡ self.now.begin }
    {
        self.begin
    }

    /// How it ended, if it did.
    pub fn outcome(&self) -> Option<&Shared<Outcome>>
        ensures { option_copied result ≡ self.now.outcome }
    {
        self.outcome.as_ref()
    }
}

impl TryCopy for PodObject {
    fn copy(&self) -> Result<PodObject, Memory> {
        Ok(PodObject {
            path: self.path.copy()?,
            begin: self.begin,
            outcome: self.outcome.copy()?,
        })
    }
}
