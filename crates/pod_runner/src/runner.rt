//! A runner with its jobs.

ghost use Rattle.std.specs.Prelude.{◌≡◌, ◌≢◌, ℕ, Err, OnOk, OnErr};
ghost use Rattle.io_edge.specs.Cause.{Rose};
ghost use Rattle.next_laws.specs.Playing.{HandHasSeen};
ghost use Rattle.reply_laws.specs.Replies.{LeavesClient};
ghost use Rattle.wf_object.specs.Documents.{law_of};
ghost use Rattle.wf_object.specs.Kept.{begins, justified};
ghost use Rattle.pod_runner.specs.declared.answers.RunFault.TheVariants as faults;
ghost use Rattle.pod_runner.specs.Running.{resting, with_given, with_next, hand_of};
ghost use Rattle.pod_runner.specs.Steps.{StepMade};
ghost use Rattle.pod_runner.specs.Inside.{is_called};

use crate::calls::step;
use crate::{RunDone, RunFault};
use base_types::{Memory, Text};
use object_store::Snapshot;
use std::alloc::Global;
use std::collections::VecDeque;
use std::marker::Model;
use store_client::Client;
use wf_bundle::Document;
use wf_object::WfContent;

/// A job on the pod of a workflow's node.
#[derive(Debug, Drop)]
pub struct PodJob {
    pub workflow: Text,
    pub node: Text,
}

/// Does jobs on pods, the oldest first, step by step. Contracts see the jobs, the oldest first, and the pod that was read in it.
#[derive(Drop)]
pub struct Runner {
    jobs: VecDeque<PodJob>,
    pod: Option<Snapshot<WfContent>>,
}

impl Model for Runner {
    ghost use Rattle.pod_runner.specs.Running.{Running};

    ghost Value = { Running };

    ghost use Rattle.pod_runner.specs.RunningCode.{running_code};

    ghost coded = { running_code };

    ghost use Rattle.pod_runner.specs.Inside.{running_in, IsOfFirst};

    ghost view = { λ runner. running_in runner.jobs.items runner.pod };

    ghost invariant = { λ runner. IsOfFirst runner.jobs.items runner.pod };
}

// Whether the job goes on.
fn goes_on(answer: &Result<RunDone, RunFault>) -> bool
    ensures { result ≡ is_called answer.now }
{
    matches!(answer, Ok(RunDone::Called))
}

impl Runner {
    /// A runner without jobs. It takes no memory.
    pub fn new(alloc: Global) -> Runner
        ensures { result ≡ resting }
    {
        Runner {
            jobs: VecDeque::new(alloc),
            pod: None,
        }
    }

    /// Gives a job on a pod, after those that are there.
    pub fn give(&mut self, workflow: Text, node: Text) -> Result<(), Memory>
        ensures ok { OnOk result
            (self.new ≡ with_given self.old record { workflow = workflow; node = node }) }
        ensures err { OnErr result (self.new ≡ self.old) }
    {
        self.jobs.push_back(PodJob { workflow, node })?;
        Ok(())
    }

    /// Forgets all.
    pub fn restart(&mut self)
        ensures { self.new ≡ resting }
    {
        self.jobs.clear();
        self.pod = None;
    }

    // The next job begins.
    fn begin_next(&mut self)
        ensures { self.new ≡ with_next self.old }
    {
        let _ = self.jobs.pop_front();
        self.pod = None;
    }

    /// Does the next step of the oldest job: it reads the pod, or writes its outcome, or ends the job. The step is answered at a
    /// history that goes on from what the client had seen.
    ///
    /// Conflict only where the pod moved on from the version that was read; Fault only where the client's faults rose.
    pub fn step<C: Client<WfContent>>(
        &mut self,
        client: &mut C,
        document: &Document,
    ) -> Result<RunDone, RunFault>
        requires law { C.law client.old ≡ document.now }
        requires seen { HandHasSeen (C.seen client.old) (hand_of (C.lag client.old) self.old) }
        ensures leaves { LeavesClient
            begins justified C.seen C.law C.place C.faults client.old client.new }
        ensures seen { HandHasSeen (C.seen client.new) (hand_of (C.lag client.new) self.new) }
        ensures made { result ≢ Err faults.Memory → (i : ℕ) → StepMade
            (law_of document.now) i (C.seen client.old) (hand_of (C.lag client.old) self.old) (C.others client.old)
            result (C.seen client.new) (hand_of (C.lag client.new) self.new) (C.others client.new) }
        ensures memory { result ≡ Err faults.Memory → self.new ≡ with_next self.old }
        ensures fault { result ≡ Err faults.Fault →
            C.rose client.old client.new × Rose (C.faults client.old) (C.faults client.new) }
    {
        let Some(job) = self.jobs.front() else {
            return Ok(RunDone::Idle);
        };
        let answer = step(job, &mut self.pod, client, document);
        if goes_on(&answer) {
            return answer;
        }
        self.begin_next();
        answer
    }
}
