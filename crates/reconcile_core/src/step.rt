//! A step of a job: at most one call of the store.

ghost use Rattle.std.specs.Prelude.{◌≡◌, ◌≢◌, Ok, Err, IfOk, if◌then◌else◌};
ghost use Rattle.next_step.specs.Replies.{after};
ghost use Rattle.worker_job.specs.Jobs.{IsRead, FactGoesOn, SaveGoesOn, LocksGoOn};
ghost use Rattle.reconcile_core.specs.Hearing.{Hears};
ghost use Rattle.io_edge.specs.Cause.{Rose};
ghost use Rattle.lawful.specs.Manifests.{HasValidWorkflows};
ghost use Rattle.next_step.specs.Next.{get, act, worker_next};
ghost use Rattle.next_step.specs.Changes.{ViewsOf};
ghost use Rattle.object_store.specs.declared.refused.StoreRefused.TheVariants as refusals;
ghost use Rattle.reply_laws.specs.Replies.{refusal, read_reply, change_reply, LeavesClient};
ghost use Rattle.wf_object.specs.Documents.{law_of};
ghost use Rattle.wf_object.specs.Kept.{begins, justified};
ghost use Rattle.worker_job.specs.Told.{matter_told, key_of};
ghost use Rattle.reconcile_core.specs.declared.answers.Ended.TheVariants.{Absent};
ghost use Rattle.reconcile_core.specs.declared.answers.StepDone.TheVariants as done;
ghost use Rattle.reconcile_core.specs.declared.answers.ReconcileFault.TheVariants as faults;
ghost use Rattle.reconcile_core.specs.Answers.{of_refusal};
ghost use Rattle.reconcile_core.specs.Steps.{JobStepMade};

use crate::perform::perform;
use crate::plan::planned;
use crate::{Ended, ReconcileFault, StepDone};
use job_calls::get;
use next_laws::laws::views_stay;
use object_store::{Snapshot, StoreRefused};
use store_client::Client;
use tree_types::Key;
use wf_bundle::Document;
use wf_object::WfContent;
use worker_job::{Job, Matter, Next};

// What was refused ends the job.
fn given_up(refused: StoreRefused) -> Result<StepDone, ReconcileFault>
    ensures memory { refused ≡ refusals.Memory → result ≡ Err faults.Memory }
    ensures other { refused ≢ refusals.Memory → result ≡ of_refusal (refusal refused) }
    ensures fault { result ≡ Err faults.Fault → refused ≡ refusals.Fault }
{
    match refused {
        StoreRefused::Conflict { expected, found } => {
            Err(ReconcileFault::Conflict { expected, found })
        }
        StoreRefused::Fault => Err(ReconcileFault::Fault),
        StoreRefused::Memory => Err(ReconcileFault::Memory),
        StoreRefused::NoObject | StoreRefused::Exists | StoreRefused::Behind { clock: _ } => {
            Ok(StepDone::Ended(Ended::Absent))
        }
    }
}

fn called(goes_on: bool) -> StepDone
    ensures { result ≡ (if goes_on then done.Called else done.Ended Absent) }
{
    if goes_on {
        StepDone::Called
    } else {
        StepDone::Ended(Ended::Absent)
    }
}

// What the answer of a get makes of the job.
fn heard(
    job: &mut Job,
    key: &Key,
    answer: Result<Snapshot<WfContent>, StoreRefused>,
) -> Result<StepDone, ReconcileFault>
    requires key { IsRead job.old.workflow key.now }
    requires of { IfOk answer (λ s. s.key ≡ key.now) }
    ensures told { result ≢ Err faults.Memory → Hears
        (after job.old.views (get key.now) (read_reply answer)) answer (read_reply answer) result job.new.views }
    ensures workflow { job.new.workflow ≡ job.old.workflow }
    ensures fault { result ≡ Err faults.Fault → answer ≡ Err refusals.Fault }
{
    match answer {
        Ok(snapshot) => Ok(called(job.found(snapshot)?)),
        Err(StoreRefused::NoObject) => Ok(called(job.absent(key)?)),
        Err(StoreRefused::Behind { clock: _ }) => Ok(called(job.absent(key)?)),
        Err(other) => given_up(other),
    }
}

// Reads an object.
fn read<C: Client<WfContent>>(
    job: &mut Job,
    client: &mut C,
    document: &Document,
    key: &Key,
) -> Result<StepDone, ReconcileFault>
    requires views { ViewsOf (C.seen client.old) job.old.workflow job.old.views }
    requires next { worker_next (law_of document.now) job.old.workflow job.old.views ≡ get key.now }
    ensures leaves { LeavesClient
        begins justified C.seen C.law C.place C.faults client.old client.new }
    ensures made { result ≢ Err faults.Memory → JobStepMade
        (law_of document.now) job.old.workflow (C.seen client.old) job.old.views (C.lag client.old)
        (C.others client.old) result (C.seen client.new) job.new.views (C.lag client.new) (C.others client.new) }
    ensures views { result ≡ Ok done.Called →
        ViewsOf (C.seen client.new) job.old.workflow job.new.views }
    ensures workflow { job.new.workflow ≡ job.old.workflow }
    ensures fault { result ≡ Err faults.Fault →
        C.rose client.old client.new × Rose (C.faults client.old) (C.faults client.new) }
{
    views_stay();
    let answer = get(client, key);
    heard(job, key, answer)
}

// What the answer of a change makes of the job.
fn answered(
    job: &mut Job,
    matter: &Matter,
    answer: Result<Snapshot<WfContent>, StoreRefused>,
) -> Result<StepDone, ReconcileFault>
    requires of { IfOk answer (λ s. s.key ≡ key_of job.old.workflow (matter_told matter.now)) }
    requires goes_on { IfOk answer
        (λ s. FactGoesOn (matter_told matter.now) job.old.views s.content) }
    requires saved { IfOk answer
        (λ s. SaveGoesOn (matter_told matter.now) job.old.views s.content) }
    requires locks { IfOk answer
        (λ s. LocksGoOn (matter_told matter.now) job.old.views s.content) }
    ensures told { result ≢ Err faults.Memory → Hears
        (after job.old.views (act (matter_told matter.now)) (change_reply answer)) answer (change_reply answer) result
        job.new.views }
    ensures workflow { job.new.workflow ≡ job.old.workflow }
    ensures fault { result ≡ Err faults.Fault → answer ≡ Err refusals.Fault }
{
    match answer {
        Ok(snapshot) => Ok(called(job.did(matter, snapshot)?)),
        Err(StoreRefused::Exists) => Ok(called(job.there(matter)?)),
        Err(other) => given_up(other),
    }
}

// Makes a change.
fn change<C: Client<WfContent>>(
    job: &mut Job,
    client: &mut C,
    document: &Document,
    matter: &Matter,
) -> Result<StepDone, ReconcileFault>
    requires law { C.law client.old ≡ document.now }
    requires valid { HasValidWorkflows (law_of document.now) }
    requires views { ViewsOf (C.seen client.old) job.old.workflow job.old.views }
    requires next { worker_next (law_of document.now) job.old.workflow job.old.views
        ≡ act (matter_told matter.now) }
    ensures leaves { LeavesClient
        begins justified C.seen C.law C.place C.faults client.old client.new }
    ensures made { result ≢ Err faults.Memory → JobStepMade
        (law_of document.now) job.old.workflow (C.seen client.old) job.old.views (C.lag client.old)
        (C.others client.old) result (C.seen client.new) job.new.views (C.lag client.new) (C.others client.new) }
    ensures views { result ≡ Ok done.Called →
        ViewsOf (C.seen client.new) job.old.workflow job.new.views }
    ensures workflow { job.new.workflow ≡ job.old.workflow }
    ensures fault { result ≡ Err faults.Fault →
        C.rose client.old client.new × Rose (C.faults client.old) (C.faults client.new) }
{
    views_stay();
    let plan = planned(job, matter)?;
    let answer = perform(job, client, document, matter, plan);
    answered(job, matter, answer)
}

/// The next step of a job, by what it has read and noted.
pub(crate) fn step<C: Client<WfContent>>(
    job: &mut Job,
    client: &mut C,
    document: &Document,
) -> Result<StepDone, ReconcileFault>
    requires law { C.law client.old ≡ document.now }
    requires valid { HasValidWorkflows (law_of document.now) }
    requires views { ViewsOf (C.seen client.old) job.old.workflow job.old.views }
    ensures leaves { LeavesClient begins justified C.seen C.law C.place C.faults client.old client.new }
    ensures made { result ≢ Err faults.Memory → JobStepMade
        (law_of document.now) job.old.workflow (C.seen client.old) job.old.views (C.lag client.old)
        (C.others client.old) result (C.seen client.new) job.new.views (C.lag client.new) (C.others client.new) }
    ensures views { result ≡ Ok done.Called →
        ViewsOf (C.seen client.new) job.old.workflow job.new.views }
    ensures workflow { job.new.workflow ≡ job.old.workflow }
    ensures fault { result ≡ Err faults.Fault →
        C.rose client.old client.new × Rose (C.faults client.old) (C.faults client.new) }
{
    match job.next(document)? {
        Next::Get(key) => read(job, client, document, &key),
        Next::Act(matter) => change(job, client, document, &matter),
        Next::Done => Ok(StepDone::Ended(Ended::Done)),
    }
}
