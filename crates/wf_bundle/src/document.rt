//! Documents as a whole.

ghost use Rattle.std.specs.Prelude.{◌≡◌, ◌≤◌, length, All, IfOk, true, option_map};
ghost use Rattle.std.specs.List.{filter_map};
ghost use Rattle.serde_json.specs.View.{view};
ghost use Rattle.base_types.specs.Limits.{most_list_items};
ghost use Rattle.wf_manifest.specs.Valid as manifests;
ghost use Rattle.bundle_rules.specs.Findings.{Found, Finds};
ghost use Rattle.wf_bundle.specs.Documents as documents;
ghost use Rattle.wf_bundle.specs.Outcomes.{planned_for, pods_differ};
ghost use Rattle.wf_bundle.specs.Inside.Parts.{document_by, taken, behind_found, accepted, made};
ghost use Rattle.wf_bundle.specs.declared.parts.Parts.{Parts as Taken};

use crate::Outcomes;
use crate::checking::check_items;
use crate::items::items_of;
use crate::parts::Parts;
use base_types::{List, Memory, Text};
use bundle_rules::{
    BundleRefused, ask_names, ask_schedules, ask_seconds, count_workflows, limits_of,
};
use item_reader::{
    Commands, Configs, Item, Plan, PlannedOutcome, Schedule as SaidSchedule, ScheduleStep,
};
use serde_json::Value;
use std::alloc::Global;
use tree_types::Limits;
use wf_check::Valid;
use wf_check::law::checked_valid;
use wf_places::LockLimits;
use wf_reader::law::reads_short;

/// A list of workflows in which no rule finds anything.
pub type Valids = List<Valid>;

/// A list of steps of a schedule.
pub type ScheduleSteps = List<ScheduleStep>;

/// Which hand does what, one step after the other.
#[derive(Debug, Drop)]
pub struct Schedule {
    /// From 1 to 64; the hands are numbered from 0.
    pub workers: u32,
    pub steps: ScheduleSteps,
}

/// A document in which no rule finds anything.
#[derive(Drop)]
pub struct Document {
    /// In the order of the items.
    pub workflows: Valids,
    pub configs: Configs,
    /// The limits of the semaphores that the workflows name.
    pub limits: Limits,
    pub outcomes: Outcomes,
    pub commands: Commands,
    pub schedule: Schedule,
}

impl Document {
    /// What is planned for the pod of a workflow's node: by name, else the default.
    pub fn outcome(&self, workflow: &Text, node: &Text) -> Option<&PlannedOutcome>
        ensures { option_map (λ outcome. outcome.now) result
            ≡ planned_for self.entry.now.outcomes workflow.now node.now }
    {
        self.outcomes.outcome(workflow, node)
    }
}

fn first_or<T: Drop>(list: List<T>, otherwise: T) -> T
    ensures { result ≡ documents.first_or otherwise list }
{
    let mut items = list.into_vec().into_iter();
    match items.next() {
        Some(first) => first,
        None => otherwise,
    }
}

fn steps_of(alloc: Global, said: List<Option<ScheduleStep>>) -> Result<ScheduleSteps, Memory>
    ensures { IfOk result (λ steps. steps ≡ filter_map (λ step. step) said) }
{
    let mut steps = List::new(alloc);
    for step in said.into_vec() {
        if let Some(step) = step {
            steps.push(step)?;
        }
    }
    Ok(steps)
}

fn schedule_of(alloc: Global, said: SaidSchedule) -> Result<Schedule, Memory>
    ensures { IfOk result (λ schedule. schedule ≡ documents.schedule_of said) }
{
    Ok(Schedule {
        workers: said.workers,
        steps: steps_of(alloc, said.steps)?,
    })
}

fn outcomes_of(alloc: Global, plan: Plan) -> Result<Outcomes, Memory>
    requires differ { pods_differ plan.pods ≡ true }
    ensures { IfOk result (λ outcomes. outcomes ≡ plan) }
{
    match Outcomes::of_plan(alloc, plan)? {
        Some(outcomes) => Ok(outcomes),
        None => unreachable!(),
    }
}

fn no_plan(alloc: Global) -> Plan
    ensures { result ≡ documents.no_plan }
{
    Plan {
        default: None,
        pods: List::new(alloc),
    }
}

fn no_schedule(alloc: Global) -> SaidSchedule
    ensures { result ≡ documents.no_schedule }
{
    SaidSchedule {
        workers: 1,
        steps: List::new(alloc),
    }
}

fn document_by(alloc: Global, limits: Limits, parts: Parts) -> Result<Document, Memory>
    requires differ { pods_differ (documents.first_or documents.no_plan parts.plans).pods ≡ true }
    ensures { IfOk result (λ document. document ≡ document_by limits parts) }
{
    Ok(Document {
        workflows: parts.workflows,
        configs: parts.configs,
        limits,
        outcomes: outcomes_of(alloc, first_or(parts.plans, no_plan(alloc)))?,
        commands: first_or(parts.commands, List::new(alloc)),
        schedule: schedule_of(alloc, first_or(parts.schedules, no_schedule(alloc)))?,
    })
}

// The third pass: the document as a whole.
#[tactic(auto, unfolding(crate::specs::Documents::whole_asked))]
fn ask_whole(alloc: Global, items: &[Item]) -> Result<(), BundleRefused>
    requires few { length items.now ≤ most_list_items }
    ensures { Finds result (documents.whole_asked items.now) }
{
    ask_seconds(alloc, items)?;
    ask_names(alloc, items)?;
    ask_schedules(alloc, items)
}

fn checked_parts(alloc: Global, limits: &Limits, items: List<Item>) -> Result<Parts, BundleRefused>
    requires few { length items ≤ most_list_items }
    ensures { Finds result (taken (documents.limited limits.now) items) }
{
    let limited = LockLimits::new(alloc, limits.as_slice())?;
    check_items(alloc, &limited, items)
}

// The parts, unless the document as a whole is refused.
fn behind(whole: Result<(), BundleRefused>, parts: Parts) -> Result<Parts, BundleRefused>
    ensures { (found : Found (Unit {0})) → Finds whole found → Finds result (behind_found found parts) }
{
    match whole {
        Ok(()) => Ok(parts),
        Err(refused) => Err(refused),
    }
}

// The second pass gives the items up, so what the third finds is found first, and refused behind it.
fn accepted_parts(alloc: Global, limits: &Limits, items: List<Item>) -> Result<Parts, BundleRefused>
    requires few { length items ≤ most_list_items }
    ensures told { Finds result (accepted (documents.limited limits.now) items) }
    ensures differ { IfOk result
        (λ parts. pods_differ (documents.first_or documents.no_plan parts.plans).pods ≡ true) }
{
    let whole = ask_whole(alloc, items.as_slice());
    let parts = checked_parts(alloc, limits, items)?;
    behind(whole, parts)
}

fn made(
    alloc: Global,
    limits: Limits,
    accepted: Result<Parts, BundleRefused>,
) -> Result<Document, BundleRefused>
    requires differ { IfOk accepted
        (λ parts. pods_differ (documents.first_or documents.no_plan parts.plans).pods ≡ true) }
    ensures { (found : Found Taken) → Finds accepted found → Finds result (made limits found) }
{
    match accepted {
        Ok(parts) => Ok(document_by(alloc, limits, parts)?),
        Err(refused) => Err(refused),
    }
}

// The document of these items.
fn document_in(alloc: Global, items: List<Item>) -> Result<Document, BundleRefused>
    requires few { length items ≤ most_list_items }
    ensures { Finds result (documents.document_in items) }
{
    let limits = limits_of(alloc, items.as_slice())?;
    let accepted = accepted_parts(alloc, &limits, items);
    made(alloc, limits, accepted)
}

/// The document that a JSON value is, or its first refusal.
#[tactic(auto, unfolding(crate::specs::Documents::document_of))]
pub fn read_bundle(alloc: Global, value: &Value) -> Result<Document, BundleRefused>
    ensures read { Finds result (documents.document_of (view value.now)) }
    ensures valid { IfOk result (λ document. All manifests.Valid document.workflows) }
{
    // The second clause rests on these laws.
    reads_short();
    checked_valid();
    let items = items_of(alloc, value)?;
    count_workflows(alloc, items.as_slice())?;
    document_in(alloc, items)
}
