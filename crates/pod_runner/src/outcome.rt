//! What a runner does next with a pod that it has read.

ghost use Rattle.std.specs.Prelude.{◌≡◌, Some, IfOk};
ghost use Rattle.law.specs.Contents.{PodObject as OnePod};
ghost use Rattle.law.specs.Documents.{ended_by};
ghost use Rattle.next_step.specs.Replies.{seen};
ghost use Rattle.next_step.specs.Runner.{runner_next};
ghost use Rattle.wf_object.specs.Documents.{law_of, plan_of};
ghost use Rattle.pod_runner.specs.Inside.{next_told};

use base_types::{Memory, Shared, Text, TryCopy};
use item_reader::PlannedOutcome;
use std::alloc::Global;
use tree_types::Outcome;
use wf_bundle::Document;
use wf_object::PodObject;

/// The end of a job, or the outcome to be written.
#[derive(Drop)]
pub(crate) enum Next {
    Finish(Shared<Outcome>),
    AlreadyFinished,
    NoOutcome,
    NotDue(u64),
}

// The planned outcome of a pod that ran from one tick to another.
fn ended(
    alloc: Global,
    plan: &PlannedOutcome,
    begin: u64,
    finish: u64,
) -> Result<Shared<Outcome>, Memory>
    ensures { IfOk result (λ outcome. outcome ≡ ended_by (plan_of plan.now) begin finish) }
{
    let outcome = Outcome {
        phase: plan.phase,
        result: plan.result.copy()?,
        params: plan.params.copy()?,
        transient: plan.transient,
        begin,
        finish,
    };
    Ok(Shared::new(alloc, outcome)?)
}

/// What comes next with a pod that was read at a tick.
pub(crate) fn comes_next(
    document: &Document,
    workflow: &Text,
    node: &Text,
    pod: &PodObject,
    version: u64,
    tick: u64,
) -> Result<Next, Memory>
    ensures { IfOk result (λ n. next_told n
        ≡ runner_next (law_of document.now) workflow.now node.now (Some (seen version pod.now tick))) }
{
    if pod.outcome().is_some() {
        return Ok(Next::AlreadyFinished);
    }
    let Some(plan) = document.outcome(workflow, node) else {
        return Ok(Next::NoOutcome);
    };
    let due = pod.begin().saturating_add(plan.seconds);
    if due > tick {
        return Ok(Next::NotDue(due));
    }
    Ok(Next::Finish(ended(node.allocator(), plan, pod.begin(), tick)?))
}
