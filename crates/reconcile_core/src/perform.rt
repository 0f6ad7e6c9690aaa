//! The call of an act.

ghost use Rattle.std.specs.Prelude.{◌≡◌, ◌≢◌, ◌<◌, ◌^◌, length, None, Err, IfOk, MatchOption};
ghost use Rattle.io_edge.specs.Cause.{Rose};
ghost use Rattle.object_store.specs.declared.refused.StoreRefused.TheVariants.{Fault, Memory as OutOfMemory};
ghost use Rattle.lawful.specs.Manifests.{HasValidWorkflows};
ghost use Rattle.next_step.specs.Next.{act, worker_next};
ghost use Rattle.next_step.specs.Changes.{ViewsOf};
ghost use Rattle.reply_laws.specs.Replies.{LeavesClient};
ghost use Rattle.wf_object.specs.Documents.{law_of};
ghost use Rattle.wf_object.specs.Kept.{begins, justified};
ghost use Rattle.worker_job.specs.Told.{matter_told, key_of};
ghost use Rattle.reconcile_core.specs.Plans.{from_content, IsNext, IsFrom, IsPlan, ActDone};

use crate::plan::Plan;
use base_types::{Memory, TryCopy};
use job_calls::{create, write};
use next_laws::laws::acts_still;
use object_store::{Snapshot, StoreRefused};
use store_client::Client;
use tree_types::Key;
use wf_bundle::Document;
use wf_object::WfContent;
use worker_job::{Job, Matter};

// The object that an act changes, as it was read; None where it makes one.
fn from<'a>(job: &'a Job, matter: &Matter) -> Option<&'a Snapshot<WfContent>>
    requires { IsNext job.now.workflow job.now.views (matter_told matter.now) }
    ensures { MatchOption result
        (from_content job.now.views (matter_told matter.now) ≡ None)
        (λ s. IsFrom job.now.workflow job.now.views (matter_told matter.now) s.now) }
{
    match matter {
        Matter::RecordFact(_) => job.flow(),
        Matter::File(_, _, _) => job.book(),
        Matter::Release(_, _) => job.book(),
        Matter::Save(_, _, _, _) => job.saves(),
        Matter::Create(_, _) | Matter::Submit(_) => None,
    }
}

// The key of the object that an act changes or makes.
fn key(job: &Job, matter: &Matter) -> Result<Key, Memory>
    ensures { IfOk result (λ key. key ≡ key_of job.now.workflow (matter_told matter.now)) }
{
    match matter {
        Matter::RecordFact(_) => Ok(Key::Workflow(job.workflow().copy()?)),
        Matter::File(_, _, _) | Matter::Release(_, _) => Ok(Key::Locks),
        Matter::Save(_, _, _, _) => Ok(Key::Caches),
        Matter::Create(_, node) => Ok(Key::Pod(job.workflow().copy()?, node.copy()?)),
        Matter::Submit(again) => Ok(Key::Workflow(again.name.copy()?)),
    }
}

/// Makes the change of the act that is next.
pub(crate) fn perform<C: Client<WfContent>>(
    job: &Job,
    client: &mut C,
    document: &Document,
    matter: &Matter,
    plan: Plan,
) -> Result<Snapshot<WfContent>, StoreRefused>
    requires law { C.law client.old ≡ document.now }
    requires valid { HasValidWorkflows (law_of document.now) }
    requires views { ViewsOf (C.seen client.old) job.now.workflow job.now.views }
    requires next { worker_next (law_of document.now) job.now.workflow job.now.views
        ≡ act (matter_told matter.now) }
    requires plan { IsPlan job.now.workflow job.now.views (matter_told matter.now) plan }
    ensures leaves { LeavesClient begins justified C.seen C.law C.place C.faults client.old client.new }
    ensures did { result ≢ Err OutOfMemory → ActDone
        job.now.workflow job.now.views (matter_told matter.now)
        (C.seen client.old) result (C.seen client.new) (C.others client.old) (C.others client.new) }
    ensures key { IfOk result (λ s. s.key ≡ key_of job.now.workflow (matter_told matter.now)) }
    ensures content { IfOk result (λ s. s.content ≡ plan.content) }
    ensures lag { C.lag client.new ≡ C.lag client.old }
    ensures fault { result ≡ Err Fault →
        C.rose client.old client.new × Rose (C.faults client.old) (C.faults client.new) }
{
    acts_still();
    match from(job, matter) {
        Some(seen) => write(client, seen, plan.content, plan.change),
        None => {
            let key = key(job, matter)?;
            create(client, key, plan.content, plan.change)
        }
    }
}
