//! The jobs of a round.

ghost use Rattle.std.specs.Prelude.{◌≡◌, ◌++◌, map, IfOk, OnOk, IfSome, option_map, option_to_list};
ghost use Rattle.law.specs.Documents.{Document as LawDocument};
ghost use Rattle.law.specs.Contents.{Story, pod_of};
ghost use Rattle.next_step.specs.Hands.{for_pod};
ghost use Rattle.next_step.specs.Rounds.{submitted_by, created_by, if_unfinished};
ghost use Rattle.run_laws.specs.Pods.{still_open};
ghost use Rattle.law.specs.Justified.{IsLawful};
ghost use Rattle.rest_laws.specs.Pods.{end_from, is_ahead};
ghost use Rattle.wf_object.specs.Documents.{law_of};
ghost use Rattle.sim_schedule.specs.Inside.Jobs.{given, flows_in, pods_in, is_open, if_left, KnowsEnd, KnowsEnds, AreLeft};

use base_types::{List, Memory, Text, TryCopy};
use io_edge::Outage;
use object_store::Store;
use rest_laws::laws::pods_wait;
use std::alloc::Global;
use tree_types::Entry;
use wf_bundle::Document;
use wf_object::{PodObject, WfContent, pod_at};

/// A worker's job on a workflow, or a runner's on a pod.
#[derive(Debug, Drop)]
pub(crate) enum Job {
    Workflow(Text),
    /// The pod of a workflow, by the name of its node, and the tick at which it ends, if its end is planned.
    Pod(Text, Text, Option<u64>),
}

/// A list of jobs.
pub(crate) type Jobs = List<Job>;

// The tick at which a pod ends, if its end is planned.
fn end_of(document: &Document, workflow: &Text, node: &Text, pod: &PodObject) -> Option<u64>
    ensures { result ≡ end_from pod.now.begin ((law_of document.now).planned workflow.now node.now) }
{
    match document.outcome(workflow, node) {
        None => None,
        Some(plan) => Some(pod.begin().saturating_add(plan.seconds)),
    }
}

// The worker's job on a workflow that was submitted.
fn worker_job(entry: &Entry) -> Result<Option<Job>, Memory>
    ensures { IfOk result (λ job. option_map given job ≡ submitted_by entry.now) }
{
    match entry {
        Entry::Submit {
            workflow,
            old: _,
            facts: _,
        } => Ok(Some(Job::Workflow(workflow.copy()?))),
        _ => Ok(None),
    }
}

// The runner's job on a pod that stands, where it has not ended.
fn pod_job<O: Outage>(
    store: &Store<WfContent, O>,
    document: &Document,
    workflow: &Text,
    node: &Text,
) -> Result<Option<Job>, Memory>
    ensures job { IfOk result (λ job. option_map given job
        ≡ if_unfinished (for_pod workflow.now node.now) (pod_of store.now.history workflow.now node.now)) }
    ensures ends { IfOk result (λ job. IfSome job (KnowsEnd (law_of document.now) store.now.history)) }
{
    let Some(pod) = pod_at(store, workflow, node)? else {
        return Ok(None);
    };
    if pod.outcome().is_some() {
        return Ok(None);
    }
    let end = end_of(document, workflow, node, pod);
    Ok(Some(Job::Pod(workflow.copy()?, node.copy()?, end)))
}

// The runner's job on a pod that was made, where it has not ended.
fn runner_job<O: Outage>(
    store: &Store<WfContent, O>,
    document: &Document,
    entry: &Entry,
) -> Result<Option<Job>, Memory>
    ensures job { IfOk result (λ job. option_map given job ≡ created_by store.now.history entry.now) }
    ensures ends { IfOk result (λ job. IfSome job (KnowsEnd (law_of document.now) store.now.history)) }
{
    match entry {
        Entry::Create {
            workflow,
            node,
            path: _,
            begin: _,
        } => pod_job(store, document, workflow, node),
        _ => Ok(None),
    }
}

fn add(jobs: &mut Jobs, job: Option<Job>) -> Result<(), Memory>
    ensures jobs { OnOk result
        (map given jobs.new ≡ map given jobs.old ++ option_to_list (option_map given job)) }
    ensures ends { (D : LawDocument) (h : Story) → KnowsEnds D h jobs.old → IfSome job (KnowsEnd D h) →
        OnOk result (KnowsEnds D h jobs.new) }
{
    if let Some(job) = job {
        jobs.push(job)?;
    }
    Ok(())
}

/// Whether the end of a pod is ahead of the clock.
pub(crate) fn is_ahead(clock: u64, end: Option<u64>) -> bool
    ensures { result ≡ is_ahead clock end }
{
    match end {
        None => true,
        Some(tick) => clock < tick,
    }
}

// Whether a pod stands that has not ended.
fn is_open<O: Outage>(
    store: &Store<WfContent, O>,
    workflow: &Text,
    node: &Text,
) -> Result<bool, Memory>
    ensures { IfOk result (λ found. found ≡ is_open store.now.history workflow.now node.now) }
{
    match pod_at(store, workflow, node)? {
        None => Ok(false),
        Some(pod) => Ok(pod.outcome().is_none()),
    }
}

// Whether the pod of a runner's job has not ended. Before its end it is not looked at.
fn is_left<O: Outage>(store: &Store<WfContent, O>, job: &Job) -> Result<bool, Memory>
    ensures { (D : LawDocument) → IsLawful D store.now.history → KnowsEnd D store.now.history job.now →
        IfOk result (λ left. if_left left (given job.now) ≡ still_open store.now.history (given job.now)) }
{
    pods_wait();
    match job {
        Job::Workflow(_) => Ok(false),
        Job::Pod(workflow, node, end) => {
            if is_ahead(store.clock(), *end) {
                Ok(true)
            } else {
                is_open(store, workflow, node)
            }
        }
    }
}

/// The runners' jobs among these whose pods have not ended yet.
pub(crate) fn unfinished_jobs<O: Outage>(
    alloc: Global,
    store: &Store<WfContent, O>,
    jobs: Jobs,
) -> Result<Jobs, Memory>
    ensures { (D : LawDocument) → IsLawful D store.now.history → KnowsEnds D store.now.history jobs →
        IfOk result (λ left. AreLeft D store.now.history jobs left) }
{
    let mut left = List::new(alloc);
    for job in jobs.into_vec() {
        if is_left(store, &job)? {
            left.push(job)?;
        }
    }
    Ok(left)
}

/// Adds a worker's job for each workflow that was submitted, in that order.
pub(crate) fn add_worker_jobs(jobs: &mut Jobs, entries: &[Entry]) -> Result<(), Memory>
    ensures { OnOk result (map given jobs.new ≡ map given jobs.old ++ flows_in entries.now) }
{
    for entry in entries {
        add(jobs, worker_job(entry)?)?;
    }
    Ok(())
}

/// Adds a runner's job for each pod that was made and has not ended, in the order of their creation.
pub(crate) fn add_runner_jobs<O: Outage>(
    jobs: &mut Jobs,
    store: &Store<WfContent, O>,
    document: &Document,
    entries: &[Entry],
) -> Result<(), Memory>
    ensures jobs { OnOk result
        (map given jobs.new ≡ map given jobs.old ++ pods_in store.now.history entries.now) }
    ensures ends { KnowsEnds (law_of document.now) store.now.history jobs.old →
        OnOk result (KnowsEnds (law_of document.now) store.now.history jobs.new) }
{
    for entry in entries {
        add(jobs, runner_job(store, document, entry)?)?;
    }
    Ok(())
}
