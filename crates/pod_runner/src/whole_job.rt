//! A whole job on a pod.

ghost use Rattle.std.specs.Prelude.{◌≡◌, ◌≢◌, Err};
ghost use Rattle.io_edge.specs.Cause.{Rose};
ghost use Rattle.next_step.specs.Hands.{for_pod};
ghost use Rattle.reply_laws.specs.Replies.{LeavesClient};
ghost use Rattle.run_laws.specs.Whole.{Ran};
ghost use Rattle.wf_object.specs.Documents.{law_of};
ghost use Rattle.wf_object.specs.Kept.{begins, justified};
ghost use Rattle.pod_runner.specs.declared.answers.RunFault.TheVariants as faults;
ghost use Rattle.pod_runner.specs.WholeJobs.{told_of, JobMade, RoseSince};

use crate::calls::{end, read};
use crate::runner::PodJob;
use crate::{RunDone, RunFault};
use base_types::{Text, TryCopy};
use store_client::Client;
use wf_bundle::Document;
use wf_object::WfContent;

/// Does a whole job on a pod: reads it, and ends.
///
/// Conflict only where the pod moved on from the version that was read; Fault only where the client's faults rose. Where
/// nobody else calls the store, and the client has no lag, the job ran as one that nobody disturbs.
pub fn run_pod<C: Client<WfContent>>(
    client: &mut C,
    workflow: &Text,
    node: &Text,
    document: &Document,
) -> Result<RunDone, RunFault>
    requires law { C.law client.old ≡ document.now }
    ensures leaves { LeavesClient
        begins justified C.seen C.law C.place C.faults client.old client.new }
    ensures made { result ≢ Err faults.Memory → JobMade
        (law_of document.now) (record { workflow = workflow.now; node = node.now }) (C.seen client.old) (C.lag client.old)
        (C.others client.old) result (C.seen client.new) (C.others client.new) }
    ensures fault { result ≡ Err faults.Fault → RoseSince
        (LeavesClient begins justified C.seen C.law C.place C.faults) C.rose client.old client.new
        × Rose (C.faults client.old) (C.faults client.new) }
    ensures alone { result ≢ Err faults.Memory → C.lag client.old ≡ 0 →
        C.others client.new ≡ C.others client.old → Ran (law_of document.now)
        (C.seen client.old) (for_pod workflow.now node.now) (told_of result) (C.seen client.new) }
{
    let job = PodJob {
        workflow: workflow.copy()?,
        node: node.copy()?,
    };
    match read(&job, client) {
        Ok(Some(seen)) => end(&job, &seen, client, document),
        Ok(None) => Ok(RunDone::Absent),
        Err(fault) => Err(fault),
    }
}
