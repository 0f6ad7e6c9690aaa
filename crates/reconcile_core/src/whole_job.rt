//! A whole job.

ghost use Rattle.std.specs.Prelude.{◌≡◌, ◌≢◌, ℕ, Err};
ghost use Rattle.lawful.specs.Manifests.{HasValidWorkflows};
ghost use Rattle.next_step.specs.Hands.{for_flow};
ghost use Rattle.next_step.specs.Views.{nothing};
ghost use Rattle.reply_laws.specs.Replies.{LeavesClient};
ghost use Rattle.run_laws.specs.Whole.{Ran};
ghost use Rattle.wf_object.specs.Documents.{law_of};
ghost use Rattle.wf_object.specs.Kept.{begins, justified};
ghost use Rattle.reconcile_core.specs.declared.answers.ReconcileFault.TheVariants as faults;
ghost use Rattle.reconcile_core.specs.Reconciled.{told_of, JobMade, MovedOn, WouldBeTooLarge, FaultCame};

use crate::step::step;
use crate::{ReconcileFault, StepDone};
use base_types::{Text, TryCopy};
use next_laws::laws::views_stay;
use std::alloc::Global;
use store_client::Client;
use wf_bundle::Document;
use wf_object::WfContent;
use worker_job::Job;

// Does the steps of a job that begins.
fn finish<C: Client<WfContent>>(
    job: &mut Job,
    client: &mut C,
    document: &Document,
) -> Result<(), ReconcileFault>
    requires law { C.law client.old ≡ document.now }
    requires valid { HasValidWorkflows (law_of document.now) }
    requires begun { job.old.views ≡ nothing }
    ensures leaves { LeavesClient begins justified C.seen C.law C.place C.faults client.old client.new }
    ensures made { result ≢ Err faults.Memory → JobMade
        (law_of document.now) job.old.workflow (C.seen client.old) (C.lag client.old) (C.others client.old)
        result (C.seen client.new) (C.lag client.new) (C.others client.new) }
    ensures alone { result ≢ Err faults.Memory → C.lag client.old ≡ 0 →
        C.others client.new ≡ C.others client.old → Ran
        (law_of document.now) (C.seen client.old) (for_flow job.old.workflow) (told_of result) (C.seen client.new) }
    ensures conflict { (expected there : ℕ) → result ≡ Err (faults.Conflict expected there) →
        MovedOn (law_of document.now) job.old.workflow expected there (C.seen client.new) }
    ensures large { result ≡ Err faults.TooLarge →
        WouldBeTooLarge (law_of document.now) job.old.workflow (C.seen client.new) }
    ensures fault { result ≡ Err faults.Fault → FaultCame
        begins justified C.seen C.law C.place C.faults C.rose client.old client.new }
{
    views_stay();
    // So many calls no job makes; that a job ends is a law of `next_laws`.
    'calls: for _ in 0..u64::MAX {
        match step(job, client, document) {
            Ok(StepDone::Called) => {}
            Ok(StepDone::Ended(_)) => return Ok(()),
            Ok(StepDone::Idle) => unreachable!(),
            Err(fault) => return Err(fault),
        }
    }
    Err(ReconcileFault::Memory)
}

/// Does a whole job on a workflow, step by step until it ends. Each step is the one that comes next by what was read and
/// noted. Where nobody else's entries come meanwhile, and nothing is read with a lag, the job is one that nobody disturbs.
///
/// Conflict only where an object moved on from the version that was read; Fault only where a call failed; TooLarge only
/// where the next fact would make a tree of more than 10,000 nodes.
pub fn reconcile<C: Client<WfContent>>(
    alloc: Global,
    client: &mut C,
    workflow: &Text,
    document: &Document,
) -> Result<(), ReconcileFault>
    requires law { C.law client.old ≡ document.now }
    requires valid { HasValidWorkflows (law_of document.now) }
    ensures leaves { LeavesClient begins justified C.seen C.law C.place C.faults client.old client.new }
    ensures made { result ≢ Err faults.Memory → JobMade
        (law_of document.now) workflow.now (C.seen client.old) (C.lag client.old) (C.others client.old)
        result (C.seen client.new) (C.lag client.new) (C.others client.new) }
    ensures alone { result ≢ Err faults.Memory → C.lag client.old ≡ 0 →
        C.others client.new ≡ C.others client.old → Ran
        (law_of document.now) (C.seen client.old) (for_flow workflow.now) (told_of result) (C.seen client.new) }
    ensures conflict { (expected there : ℕ) → result ≡ Err (faults.Conflict expected there) →
        MovedOn (law_of document.now) workflow.now expected there (C.seen client.new) }
    ensures large { result ≡ Err faults.TooLarge →
        WouldBeTooLarge (law_of document.now) workflow.now (C.seen client.new) }
    ensures fault { result ≡ Err faults.Fault → FaultCame
        begins justified C.seen C.law C.place C.faults C.rose client.old client.new }
{
    let mut job = Job::new(alloc, workflow.copy()?);
    finish(&mut job, client, document)
}
