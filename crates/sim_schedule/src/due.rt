//! The next tick at which something is due.

ghost use Rattle.std.specs.Prelude.{◌≡◌, [], ◌∷◌, IfOk, map, option_to_list};
ghost use Rattle.std.specs.List.{flat_map};
ghost use Rattle.history.specs.History.{clock_of};
ghost use Rattle.law.specs.Documents.{Document as LawDocument};
ghost use Rattle.law.specs.Contents.{flow_of};
ghost use Rattle.law.specs.Due.{command_tick};
ghost use Rattle.next_step.specs.Ticks.{timers, least_above, next_tick};
ghost use Rattle.tree_state.specs.Finding.{sooner};
ghost use Rattle.wf_object.specs.Documents.{law_of, command_of};
ghost use Rattle.sim_schedule.specs.Inside.Jobs.{given, KnowsEnds, Waits, AllWait};
ghost use Rattle.sim_schedule.specs.Inside.Rosters.{IsOf, ticks_of};

use crate::jobs::Job;
use crate::roster::Roster;
use base_types::{Memory, Text};
use io_edge::Outage;
use item_reader::Command;
use object_store::Store;
use rest_laws::laws::pods_wait;
use wf_bundle::Document;
use wf_object::{WfContent, workflow_at};

// The sooner of two ticks, where there are any.
fn sooner(one: Option<u64>, other: Option<u64>) -> Option<u64>
    ensures { result ≡ sooner one other }
{
    match one {
        None => other,
        Some(a) => match other {
            None => Some(a),
            Some(b) => Some(if a <= b { a } else { b }),
        },
    }
}

fn if_above(clock: u64, tick: u64) -> Option<u64>
    ensures { result ≡ least_above clock (tick ∷ []) }
{
    if clock < tick { Some(tick) } else { None }
}

fn end_above(clock: u64, end: Option<u64>) -> Option<u64>
    ensures { result ≡ least_above clock (option_to_list end) }
{
    match end {
        None => None,
        Some(tick) => if_above(clock, tick),
    }
}

// The next timer of a workflow.
#[tactic(auto, using(crate::proofs::Dues::timers_least))]
pub(crate) fn next_timer<O: Outage>(
    store: &Store<WfContent, O>,
    workflow: &Text,
) -> Result<Option<u64>, Memory>
    ensures { IfOk result (λ tick. tick
        ≡ least_above (clock_of store.now.history) (timers (flow_of store.now.history workflow.now))) }
{
    match workflow_at(store, workflow)? {
        None => Ok(None),
        Some(object) => Ok(object.state().next_timer(store.clock())),
    }
}

// The next tick of the workflow or the pod of a job. The end of a pod is that of its job, as long as the pod has not ended.
fn next_by<O: Outage>(store: &Store<WfContent, O>, job: &Job) -> Result<Option<u64>, Memory>
    ensures { (D : LawDocument) → Waits D store.now.history job.now → IfOk result (λ tick. tick
        ≡ least_above (clock_of store.now.history) (ticks_of D store.now.history (given job.now))) }
{
    pods_wait();
    match job {
        Job::Workflow(workflow) => next_timer(store, workflow),
        Job::Pod(_, _, end) => Ok(end_above(store.clock(), *end)),
    }
}

pub(crate) fn command_tick(command: &Command) -> u64
    ensures { result ≡ command_tick (command_of command.now) }
{
    match command {
        Command::Resume { tick, workflow: _ } => *tick,
        Command::Resubmit {
            tick,
            old: _,
            name: _,
            memoized: _,
            created: _,
        } => *tick,
    }
}

// The next tick of the workflows or the pods of these jobs.
#[tactic(auto, using(crate::proofs::Dues::next_flat))]
fn next_of<O: Outage>(store: &Store<WfContent, O>, jobs: &[Job]) -> Result<Option<u64>, Memory>
    ensures { (D : LawDocument) → AllWait D store.now.history jobs.now → IfOk result (λ tick. tick
        ≡ least_above (clock_of store.now.history)
        (flat_map (λ j. ticks_of D store.now.history (given j)) jobs.now)) }
{
    let mut next = None;
    for job in jobs {
        next = sooner(next, next_by(store, job)?);
    }
    Ok(next)
}

// The next tick of commands.
#[tactic(auto, using(crate::proofs::Dues::next_mapped))]
fn next_command(clock: u64, commands: &[Command]) -> Option<u64>
    ensures { result ≡ least_above clock (map (λ c. command_tick (command_of c)) commands.now) }
{
    let mut next = None;
    for command in commands {
        next = sooner(next, if_above(clock, command_tick(command)));
    }
    next
}

/// As `next_due`, by the jobs of a round that begins now.
pub(crate) fn next_after<O: Outage>(
    store: &Store<WfContent, O>,
    document: &Document,
    roster: &Roster,
) -> Result<Option<u64>, Memory>
    ensures { IsOf store.now.history roster.now →
        KnowsEnds (law_of document.now) store.now.history roster.now.pods → IfOk result
        (λ tick. tick ≡ next_tick (law_of document.now) store.now.history) }
{
    let workflows = next_of(store, roster.workflows.as_slice())?;
    let pods = next_of(store, roster.pods.as_slice())?;
    let said = next_command(store.clock(), document.commands.as_slice());
    Ok(sooner(sooner(workflows, pods), said))
}

/// The least tick above the clock at which a pod with a planned outcome, a timer or a command is due.
pub fn next_due<O: Outage>(
    store: &Store<WfContent, O>,
    document: &Document,
) -> Result<Option<u64>, Memory>
    ensures { IfOk result
        (λ tick. tick ≡ next_tick (law_of document.now) store.now.history) }
{
    let roster = Roster::of(store.entries().allocator(), store, document)?;
    next_after(store, document, &roster)
}
