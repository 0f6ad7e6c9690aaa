//! A worker with its jobs.

ghost use Rattle.std.specs.Prelude.{◌≡◌, ◌≢◌, ℕ, Err, OnOk, OnErr};
ghost use Rattle.io_edge.specs.Cause.{Rose};
ghost use Rattle.lawful.specs.Manifests.{HasValidWorkflows};
ghost use Rattle.next_laws.specs.Playing.{HandHasSeen};
ghost use Rattle.reply_laws.specs.Replies.{LeavesClient};
ghost use Rattle.wf_object.specs.Documents.{law_of};
ghost use Rattle.wf_object.specs.Kept.{begins, justified};
ghost use Rattle.reconcile_core.specs.declared.answers.ReconcileFault.TheVariants as faults;
ghost use Rattle.reconcile_core.specs.Inside.{after_answer};
ghost use Rattle.reconcile_core.specs.Steps.{StepMade};
ghost use Rattle.reconcile_core.specs.Workers.{resting, with_given, with_next, hand_of};

use crate::step::step;
use crate::{ReconcileFault, StepDone};
use base_types::{Memory, Text};
use next_laws::laws::views_stay;
use std::alloc::Global;
use std::collections::VecDeque;
use std::marker::Model;
use store_client::Client;
use wf_bundle::Document;
use wf_object::WfContent;
use worker_job::Job;

/// Does jobs on workflows, the oldest first, step by step. Contracts see the names of the workflows, the oldest job's first,
/// and what was read and noted in that job.
#[derive(Drop)]
pub struct Worker {
    alloc: Global,
    job: Option<Job>,
    waiting: VecDeque<Text>,
}

impl Model for Worker {
    ghost use Rattle.reconcile_core.specs.Workers.{Working};

    ghost Value = { Working };

    ghost use Rattle.reconcile_core.specs.WorkingCode.{working_code};

    ghost coded = { working_code };

    ghost use Rattle.reconcile_core.specs.Inside.{working_in, IsBusyFirst};

    ghost view = { λ worker. working_in worker.job worker.waiting.items };

    ghost invariant = { λ worker. IsBusyFirst worker.job worker.waiting.items };
}

impl Worker {
    /// A worker without jobs. It takes no memory.
    pub fn new(alloc: Global) -> Worker
        ensures { result ≡ resting }
    {
        Worker {
            alloc,
            job: None,
            waiting: VecDeque::new(alloc),
        }
    }

    /// Gives a job on a workflow, after those that are there.
    pub fn give(&mut self, workflow: Text) -> Result<(), Memory>
        ensures ok { OnOk result (self.new ≡ with_given self.old workflow) }
        ensures err { OnErr result (self.new ≡ self.old) }
    {
        match self.job {
            None => self.job = Some(Job::new(self.alloc, workflow)),
            Some(_) => self.waiting.push_back(workflow)?,
        }
        Ok(())
    }

    /// Forgets all.
    pub fn restart(&mut self)
        ensures { self.new ≡ resting }
    {
        self.job = None;
        self.waiting.clear();
    }

    // The next job begins.
    fn begin_next(&mut self)
        ensures { self.new ≡ with_next self.old }
    {
        self.job = match self.waiting.pop_front() {
            Some(workflow) => Some(Job::new(self.alloc, workflow)),
            None => None,
        };
    }

    // A job that is over gives way to the next.
    fn give_way(&mut self, answer: &Result<StepDone, ReconcileFault>)
        ensures { self.new ≡ after_answer answer.now self.old }
    {
        match answer {
            Ok(StepDone::Called) => {}
            Ok(StepDone::Idle) | Ok(StepDone::Ended(_)) | Err(_) => self.begin_next(),
        }
    }

    /// Does the next step of the oldest job: at most one call. The step is the one that comes next by what was read and noted,
    /// and is answered at a history that goes on from what the client had seen. A job that ends, or is given up, gives way to
    /// the next.
    ///
    /// Conflict only where an object moved on from the version that was read; Fault only where the client's faults rose;
    /// TooLarge only where the next fact would make a tree of more than 10,000 nodes.
    pub fn step<C: Client<WfContent>>(
        &mut self,
        client: &mut C,
        document: &Document,
    ) -> Result<StepDone, ReconcileFault>
        requires law { C.law client.old ≡ document.now }
        requires valid { HasValidWorkflows (law_of document.now) }
        requires seen { HandHasSeen (C.seen client.old) (hand_of (C.lag client.old) self.old) }
        ensures leaves { LeavesClient
            begins justified C.seen C.law C.place C.faults client.old client.new }
        ensures seen { HandHasSeen (C.seen client.new) (hand_of (C.lag client.new) self.new) }
        ensures made { result ≢ Err faults.Memory → (i : ℕ) → StepMade
            (law_of document.now) i (C.seen client.old) (hand_of (C.lag client.old) self.old) (C.others client.old)
            result (C.seen client.new) (hand_of (C.lag client.new) self.new) (C.others client.new) }
        ensures memory { result ≡ Err faults.Memory → self.new ≡ with_next self.old }
        ensures fault { result ≡ Err faults.Fault →
            C.rose client.old client.new × Rose (C.faults client.old) (C.faults client.new) }
    {
        views_stay();
        let Some(job) = &mut self.job else {
            return Ok(StepDone::Idle);
        };
        let answer = step(job, client, document);
        self.give_way(&answer);
        answer
    }
}
