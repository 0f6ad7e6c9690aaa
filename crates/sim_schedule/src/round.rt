//! A round: a job for each workflow and each pod that has not ended.

ghost use Rattle.std.specs.Prelude.{◌≡◌, ◌≤◌, ◌∷◌, ◌++◌, ◌||◌, [], List, false, map, Err, IfOk, OnOk};
ghost use Rattle.law.specs.Contents.{Story};
ghost use Rattle.law.specs.Justified.{IsLawful};
ghost use Rattle.lawful.specs.Manifests.{HasValidWorkflows};
ghost use Rattle.next_step.specs.Hands.{Given, for_flow, for_pod};
ghost use Rattle.next_step.specs.Rounds.{jobs_of};
ghost use Rattle.run_laws.specs.Whole.{Ran};
ghost use Rattle.run_laws.specs.Rounds.{JobsDone, full_by, is_failed};
ghost use Rattle.wf_object.specs.Documents.{law_of};
ghost use Rattle.object_store.specs.Stored.{most_faults};
ghost use Rattle.sim_schedule.specs.declared.end.RunEnd.TheVariants.{StoreFault};
ghost use Rattle.sim_schedule.specs.Inside.Jobs.{given, told, KnowsEnd, KnowsEnds};
ghost use Rattle.sim_schedule.specs.Sweeping.{GoesOn, NamesNone};
ghost use Rattle.sim_schedule.specs.Inside.Restings.{KnowsRest};
ghost use Rattle.sim_schedule.specs.Inside.Rosters.{IsOf, Follows};

use crate::RunEnd;
use crate::jobs::Job;
use crate::resting::Resting;
use crate::roster::Roster;
use base_types::{Memory, Names, Text, TryCopy};
use io_edge::Outage;
use object_store::{MOST_FAULTS, Store};
use pod_runner::{RunFault, run_pod};
use reconcile_core::{ReconcileFault, reconcile};
use rest_laws::laws::{pods_wait, workflows_rest};
use run_laws::laws::{never_moved, rounds_are_done};
use std::alloc::Global;
use store_client::MemClient;
use wf_bundle::Document;
use wf_object::WfContent;

/// How a job ended.
#[derive(Clone, Copy, Debug, PartialEq, Eq)]
pub(crate) enum JobEnd {
    Went,
    /// The next fact would make too large a tree.
    Full,
    /// A call failed.
    Failed,
}

// Does a worker's job. That an object has moved on cannot be, where the history is lawful; elsewhere it counts as a
// failure, after which another round follows.
fn work<O: Outage>(
    alloc: Global,
    store: &mut Store<WfContent, O>,
    document: &Document,
    workflow: &Text,
) -> Result<JobEnd, Memory>
    requires valid { HasValidWorkflows (law_of document.now) }
    ensures on { GoesOn (law_of document.now) store.old.history store.new.history }
    ensures rising { O.faults store.old.outage ≤ O.faults store.new.outage }
    ensures ran { IsLawful (law_of document.now) store.old.history → IfOk result (λ end.
        Ran (law_of document.now) store.old.history (for_flow workflow.now) (told end) store.new.history) }
{
    never_moved();
    let mut client = MemClient::new(store, document);
    match reconcile(alloc, &mut client, workflow, document) {
        Ok(()) => Ok(JobEnd::Went),
        Err(ReconcileFault::TooLarge) => Ok(JobEnd::Full),
        Err(ReconcileFault::Fault) => Ok(JobEnd::Failed),
        Err(
            ReconcileFault::Conflict {
                expected: _,
                found: _,
            },
        ) => Ok(JobEnd::Failed),
        Err(ReconcileFault::Memory) => Err(Memory),
    }
}

// Does a runner's job.
fn run<O: Outage>(
    alloc: Global,
    store: &mut Store<WfContent, O>,
    document: &Document,
    workflow: &Text,
    node: &Text,
) -> Result<JobEnd, Memory>
    requires valid { HasValidWorkflows (law_of document.now) }
    ensures on { GoesOn (law_of document.now) store.old.history store.new.history }
    ensures rising { O.faults store.old.outage ≤ O.faults store.new.outage }
    ensures ran { IsLawful (law_of document.now) store.old.history → IfOk result (λ end.
        Ran (law_of document.now) store.old.history (for_pod workflow.now node.now) (told end) store.new.history) }
{
    never_moved();
    let mut client = MemClient::new(store, document);
    match run_pod(&mut client, workflow, node, document) {
        Ok(_) => Ok(JobEnd::Went),
        Err(RunFault::Fault) => Ok(JobEnd::Failed),
        Err(
            RunFault::Conflict {
                expected: _,
                found: _,
            },
        ) => Ok(JobEnd::Failed),
        Err(RunFault::Memory) => Err(Memory),
    }
}

// Does a job.
fn do_job<O: Outage>(
    alloc: Global,
    store: &mut Store<WfContent, O>,
    document: &Document,
    job: &Job,
) -> Result<JobEnd, Memory>
    requires valid { HasValidWorkflows (law_of document.now) }
    ensures on { GoesOn (law_of document.now) store.old.history store.new.history }
    ensures rising { O.faults store.old.outage ≤ O.faults store.new.outage }
    ensures ran { IsLawful (law_of document.now) store.old.history → IfOk result (λ end.
        Ran (law_of document.now) store.old.history (given job.now) (told end) store.new.history) }
{
    match job {
        Job::Workflow(workflow) => work(alloc, store, document, workflow),
        Job::Pod(workflow, node, _) => run(alloc, store, document, workflow, node),
    }
}

// Does a job, or passes it where it would find nothing to do.
fn do_or_pass<O: Outage>(
    alloc: Global,
    store: &mut Store<WfContent, O>,
    document: &Document,
    resting: &mut Resting,
    job: &Job,
) -> Result<JobEnd, Memory>
    requires valid { HasValidWorkflows (law_of document.now) }
    requires resting { KnowsRest (law_of document.now) store.old.history resting.old }
    requires ends { IsLawful (law_of document.now) store.old.history →
        KnowsEnd (law_of document.now) store.old.history job.now }
    ensures on { GoesOn (law_of document.now) store.old.history store.new.history }
    ensures rising { O.faults store.old.outage ≤ O.faults store.new.outage }
    ensures ran { IsLawful (law_of document.now) store.old.history → IfOk result (λ end.
        Ran (law_of document.now) store.old.history (given job.now) (told end) store.new.history) }
    ensures resting { OnOk result (KnowsRest (law_of document.now) store.new.history resting.new) }
{
    workflows_rest();
    resting.follow(store, document);
    if resting.passes(store, job) {
        return Ok(JobEnd::Went);
    }
    let entries = store.len();
    let end = do_job(alloc, store, document, job)?;
    if let JobEnd::Went = end {
        if store.len() == entries {
            resting.note(store, job)?;
        }
    }
    Ok(end)
}

/// What a round left besides the store.
#[derive(Drop)]
pub(crate) struct Round {
    /// The workflows of which the next fact would make too large a tree, in the order of their submission.
    pub(crate) full: Names,
    /// Whether a call failed.
    pub(crate) failed: bool,
}

impl Round {
    fn new(alloc: Global) -> Round
        ensures { result ≡ record { full = []; failed = false } }
    {
        Round {
            full: Names::new(alloc),
            failed: false,
        }
    }

    // Notes how a job ended.
    fn note(&mut self, job: &Job, end: JobEnd) -> Result<(), Memory>
        ensures full { OnOk result (self.new.full ≡ self.old.full ++ full_by (given job.now) (told end)) }
        ensures failed { OnOk result (self.new.failed ≡ (self.old.failed || is_failed (told end))) }
    {
        match end {
            JobEnd::Went => {}
            JobEnd::Full => {
                if let Job::Workflow(workflow) = job {
                    self.full.push(workflow.copy()?)?;
                }
            }
            JobEnd::Failed => self.failed = true,
        }
        Ok(())
    }

    // Does one job more.
    fn add<O: Outage>(
        &mut self,
        alloc: Global,
        store: &mut Store<WfContent, O>,
        document: &Document,
        resting: &mut Resting,
        job: &Job,
    ) -> Result<(), RunEnd>
        requires valid { HasValidWorkflows (law_of document.now) }
        requires resting { KnowsRest (law_of document.now) store.old.history resting.old }
        requires ends { IsLawful (law_of document.now) store.old.history →
            KnowsEnd (law_of document.now) store.old.history job.now }
        ensures on { GoesOn (law_of document.now) store.old.history store.new.history }
        ensures rising { O.faults store.old.outage ≤ O.faults store.new.outage }
        ensures done { (start : Story) (jobs : List Given) → IsLawful (law_of document.now) store.old.history →
            JobsDone (law_of document.now) start jobs store.old.history self.old.full self.old.failed →
            OnOk result (JobsDone (law_of document.now) start (jobs ++ given job.now ∷ [])
            store.new.history self.new.full self.new.failed) }
        ensures resting { OnOk result (KnowsRest (law_of document.now) store.new.history resting.new) }
        ensures fault { result ≡ Err StoreFault → store.new.row ≡ most_faults }
        ensures names { NamesNone result }
    {
        rounds_are_done();
        let end = do_or_pass(alloc, store, document, resting, job)?;
        self.note(job, end)?;
        if store.row() == MOST_FAULTS {
            return Err(RunEnd::StoreFault);
        }
        Ok(())
    }
}

// Does these jobs, one after the other.
fn do_jobs<O: Outage>(
    alloc: Global,
    store: &mut Store<WfContent, O>,
    document: &Document,
    jobs: &[Job],
    resting: &mut Resting,
    round: &mut Round,
) -> Result<(), RunEnd>
    requires valid { HasValidWorkflows (law_of document.now) }
    requires resting { KnowsRest (law_of document.now) store.old.history resting.old }
    requires ends { IsLawful (law_of document.now) store.old.history →
        KnowsEnds (law_of document.now) store.old.history jobs.now }
    ensures on { GoesOn (law_of document.now) store.old.history store.new.history }
    ensures rising { O.faults store.old.outage ≤ O.faults store.new.outage }
    ensures done { (start : Story) (before : List Given) → IsLawful (law_of document.now) store.old.history →
        JobsDone (law_of document.now) start before store.old.history round.old.full round.old.failed →
        OnOk result (JobsDone (law_of document.now) start (before ++ map given jobs.now)
        store.new.history round.new.full round.new.failed) }
    ensures resting { OnOk result (KnowsRest (law_of document.now) store.new.history resting.new) }
    ensures fault { result ≡ Err StoreFault → store.new.row ≡ most_faults }
    ensures names { NamesNone result }
{
    pods_wait();
    for job in jobs {
        round.add(alloc, store, document, resting, job)?;
    }
    Ok(())
}

/// Does the jobs of a round, one after the other.
pub(crate) fn do_round<O: Outage>(
    alloc: Global,
    store: &mut Store<WfContent, O>,
    document: &Document,
    roster: &mut Roster,
) -> Result<Round, RunEnd>
    requires valid { HasValidWorkflows (law_of document.now) }
    requires follows { Follows (law_of document.now) store.old.history roster.old }
    requires resting { KnowsRest (law_of document.now) store.old.history roster.old.resting }
    ensures on { GoesOn (law_of document.now) store.old.history store.new.history }
    ensures rising { O.faults store.old.outage ≤ O.faults store.new.outage }
    ensures done { IsLawful (law_of document.now) store.old.history → IfOk result (λ round.
        JobsDone (law_of document.now) store.old.history (jobs_of store.old.history)
        store.new.history round.full round.failed) }
    ensures jobs { IsLawful (law_of document.now) store.old.history →
        OnOk result (IsOf store.old.history roster.new) }
    ensures ends { IsLawful (law_of document.now) store.old.history →
        OnOk result (KnowsEnds (law_of document.now) store.old.history roster.new.pods) }
    ensures follows { OnOk result (Follows (law_of document.now) store.new.history roster.new) }
    ensures resting { OnOk result (KnowsRest (law_of document.now) store.new.history roster.new.resting) }
    ensures fault { result ≡ Err StoreFault → store.new.row ≡ most_faults }
    ensures names { NamesNone result }
{
    rounds_are_done();
    pods_wait();
    roster.follow(alloc, store, document)?;
    let mut round = Round::new(alloc);
    do_jobs(
        alloc,
        store,
        document,
        roster.workflows.as_slice(),
        &mut roster.resting,
        &mut round,
    )?;
    do_jobs(
        alloc,
        store,
        document,
        roster.pods.as_slice(),
        &mut roster.resting,
        &mut round,
    )?;
    Ok(round)
}
