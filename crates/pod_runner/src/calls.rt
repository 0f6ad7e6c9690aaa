//! The calls of a job on a pod.

ghost use Rattle.std.specs.Prelude.{◌≡◌, ◌≢◌, Ok, Err, Some, None, IfOk};
ghost use Rattle.io_edge.specs.Cause.{Rose};
ghost use Rattle.law.specs.Contents.{OfPod, apply, finished, pod_in};
ghost use Rattle.next_step.specs.Replies.{seen as seen_pod};
ghost use Rattle.next_step.specs.Runner.{finish as finishes, runner_next};
ghost use Rattle.tree_types.specs.declared.entry.Key.TheVariants as of_key;
ghost use Rattle.tree_types.specs.declared.entry.Entry.TheVariants as of_entry;
ghost use Rattle.object_store.specs.Answers.{IsOf};
ghost use Rattle.reply_laws.specs.Replies.{LeavesClient};
ghost use Rattle.wf_object.specs.Documents.{law_of};
ghost use Rattle.wf_object.specs.Kept.{begins, justified};
ghost use Rattle.pod_runner.specs.declared.answers.RunDone.TheVariants.{Called};
ghost use Rattle.pod_runner.specs.declared.answers.RunFault.TheVariants as faults;
ghost use Rattle.pod_runner.specs.Inside.{pod_seen, OfJob, pod_found, fault_by, heard_by, written_by};
ghost use Rattle.pod_runner.specs.Steps.{IsOfJob, HasPod, of_found, ReadMade, EndMade, JobStepMade};

use crate::outcome::{Next, comes_next};
use crate::runner::PodJob;
use crate::{RunDone, RunFault};
use base_types::{Memory, Shared, TryCopy};
use job_calls::{get, write};
use next_laws::laws::finishes_still;
use object_store::{Snapshot, StoreRefused};
use store_client::Client;
use tree_types::{Entry, Key, Outcome};
use wf_bundle::Document;
use wf_object::{PodObject, WfContent};

// Why a job is given up. None where what the call looks for is not there.
fn fault(refused: StoreRefused) -> Option<RunFault>
    ensures { result ≡ fault_by refused }
{
    match refused {
        StoreRefused::Conflict { expected, found } => Some(RunFault::Conflict { expected, found }),
        StoreRefused::Fault => Some(RunFault::Fault),
        StoreRefused::Memory => Some(RunFault::Memory),
        StoreRefused::NoObject | StoreRefused::Exists | StoreRefused::Behind { clock: _ } => None,
    }
}

// What was read. None where it is not there, or is no pod.
fn heard(
    answer: Result<Snapshot<WfContent>, StoreRefused>,
) -> Result<Option<Snapshot<WfContent>>, RunFault>
    ensures { result ≡ heard_by answer }
{
    match answer {
        Ok(snapshot) => {
            if snapshot.content.pod().is_some() {
                Ok(Some(snapshot))
            } else {
                Ok(None)
            }
        }
        Err(refused) => match fault(refused) {
            Some(fault) => Err(fault),
            None => Ok(None),
        },
    }
}

// What came of a write.
fn written(answer: Result<Snapshot<WfContent>, StoreRefused>) -> Result<RunDone, RunFault>
    ensures { result ≡ written_by answer }
{
    match answer {
        Ok(_) => Ok(RunDone::Finished),
        Err(refused) => match fault(refused) {
            Some(fault) => Err(fault),
            None => Ok(RunDone::Absent),
        },
    }
}

fn key(job: &PodJob) -> Result<Key, Memory>
    ensures { IfOk result (λ key. key ≡ of_key.Pod job.now.workflow job.now.node) }
{
    Ok(Key::Pod(job.workflow.copy()?, job.node.copy()?))
}

fn entry(job: &PodJob, outcome: Shared<Outcome>) -> Result<Entry, Memory>
    ensures { IfOk result
        (λ entry. entry ≡ of_entry.Finish job.now.workflow job.now.node outcome) }
{
    Ok(Entry::Finish {
        workflow: job.workflow.copy()?,
        node: job.node.copy()?,
        outcome,
    })
}

// The content of a pod with its outcome.
fn with_outcome(pod: &PodObject, outcome: &Shared<Outcome>) -> Result<WfContent, Memory>
    ensures { IfOk result (λ content. content ≡ OfPod (finished pod.now outcome.now)) }
{
    Ok(WfContent::of_pod(pod.finished(outcome.copy()?)?))
}

/// Reads a pod. None where it is not there, or is no pod.
pub(crate) fn read<C: Client<WfContent>>(
    job: &PodJob,
    client: &mut C,
) -> Result<Option<Snapshot<WfContent>>, RunFault>
    ensures leaves { LeavesClient begins justified C.seen C.law C.place C.faults client.old client.new }
    ensures made { result ≢ Err faults.Memory → ReadMade
        job.now (C.seen client.old) (C.lag client.old) (C.others client.old) result
        (C.seen client.new) (C.lag client.new) (C.others client.new) }
    ensures fault { result ≡ Err faults.Fault →
        C.rose client.old client.new × Rose (C.faults client.old) (C.faults client.new) }
{
    let key = key(job)?;
    let answer = get(client, &key);
    heard(answer)
}

// Writes the outcome of a pod that was read.
fn finish<C: Client<WfContent>>(
    job: &PodJob,
    seen: &Snapshot<WfContent>,
    pod: &PodObject,
    outcome: Shared<Outcome>,
    client: &mut C,
    document: &Document,
) -> Result<RunDone, RunFault>
    requires law { C.law client.old ≡ document.now }
    requires of { IsOfJob seen.now job.now }
    requires pod { pod_in (Some seen.now.content) ≡ Some pod.now }
    requires seen { IsOf apply seen.now (C.seen client.old) }
    requires next { runner_next (law_of document.now) job.now.workflow job.now.node
        (Some (seen_pod seen.now.version pod.now seen.now.tick)) ≡ finishes outcome }
    ensures leaves { LeavesClient begins justified C.seen C.law C.place C.faults client.old client.new }
    ensures made { result ≢ Err faults.Memory → EndMade
        (law_of document.now) job.now (pod_seen (Some seen.now)) (C.seen client.old) (C.others client.old) result
        (C.seen client.new) (C.others client.new) }
    ensures lag { C.lag client.new ≡ C.lag client.old }
    ensures fault { result ≡ Err faults.Fault →
        C.rose client.old client.new × Rose (C.faults client.old) (C.faults client.new) }
{
    finishes_still();
    let content = with_outcome(pod, &outcome)?;
    let change = entry(job, outcome)?;
    let answer = write(client, seen, content, change);
    written(answer)
}

/// Ends a job on a pod that was read.
pub(crate) fn end<C: Client<WfContent>>(
    job: &PodJob,
    seen: &Snapshot<WfContent>,
    client: &mut C,
    document: &Document,
) -> Result<RunDone, RunFault>
    requires law { C.law client.old ≡ document.now }
    requires of { IsOfJob seen.now job.now }
    requires seen { IsOf apply seen.now (C.seen client.old) }
    ensures leaves { LeavesClient begins justified C.seen C.law C.place C.faults client.old client.new }
    ensures made { result ≢ Err faults.Memory → EndMade
        (law_of document.now) job.now (pod_seen (Some seen.now)) (C.seen client.old) (C.others client.old) result
        (C.seen client.new) (C.others client.new) }
    ensures lag { C.lag client.new ≡ C.lag client.old }
    ensures fault { result ≡ Err faults.Fault →
        C.rose client.old client.new × Rose (C.faults client.old) (C.faults client.new) }
{
    let Some(pod) = seen.content.pod() else {
        unreachable!()
    };
    let coming = comes_next(
        document,
        &job.workflow,
        &job.node,
        pod,
        seen.version,
        seen.tick,
    )?;
    match coming {
        Next::Finish(outcome) => finish(job, seen, pod, outcome, client, document),
        Next::AlreadyFinished => Ok(RunDone::AlreadyFinished),
        Next::NoOutcome => Ok(RunDone::NoOutcome),
        Next::NotDue(due) => Ok(RunDone::NotDue { due }),
    }
}

// The pod that was read is kept.
fn kept(
    pod: &mut Option<Snapshot<WfContent>>,
    found: Result<Option<Snapshot<WfContent>>, RunFault>,
) -> Result<RunDone, RunFault>
    requires { pod.old ≡ None }
    ensures told { result ≡ of_found found }
    ensures pod { pod.new ≡ pod_found found }
{
    match found {
        Ok(Some(seen)) => {
            *pod = Some(seen);
            Ok(RunDone::Called)
        }
        Ok(None) => Ok(RunDone::Absent),
        Err(fault) => Err(fault),
    }
}

/// The next step of a job: the pod is read, or the job ends on the one that was read.
pub(crate) fn step<C: Client<WfContent>>(
    job: &PodJob,
    pod: &mut Option<Snapshot<WfContent>>,
    client: &mut C,
    document: &Document,
) -> Result<RunDone, RunFault>
    requires law { C.law client.old ≡ document.now }
    requires of { OfJob job.now pod.old }
    requires seen { HasPod (C.seen client.old) job.now (pod_seen pod.old) }
    ensures leaves { LeavesClient begins justified C.seen C.law C.place C.faults client.old client.new }
    ensures made { result ≢ Err faults.Memory → JobStepMade
        (law_of document.now) job.now (C.seen client.old) (pod_seen pod.old) (C.lag client.old)
        (C.others client.old) result (C.seen client.new) (pod_seen pod.new) (C.lag client.new) (C.others client.new) }
    ensures of { OfJob job.now pod.new }
    ensures seen { result ≡ Ok Called → HasPod (C.seen client.new) job.now (pod_seen pod.new) }
    ensures fault { result ≡ Err faults.Fault →
        C.rose client.old client.new × Rose (C.faults client.old) (C.faults client.new) }
{
    if let Some(seen) = &*pod {
        return end(job, seen, client, document);
    }
    let found = read(job, client);
    kept(pod, found)
}
