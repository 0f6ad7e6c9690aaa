//! The workflows that a document names.

ghost use Rattle.std.specs.Prelude.{◌≡◌, ◌≤◌, ◌++◌, length, IfOk, OnOk};
ghost use Rattle.base_types.specs.Limits.{most_list_items};
ghost use Rattle.bundle_rules.specs.Findings.{Finds};
ghost use Rattle.bundle_rules.specs.Names as spec;

use crate::BundleRefused;
use crate::asked::{Asked, refuse_first};
use crate::name_set::NameSet;
use crate::seconds::member_at;
use base_types::{List, Memory};
use field_kinds::rules::NO_WORKFLOW;
use item_reader::{Command, Item, ScheduleStep};
use std::alloc::Global;

// ---- the names that are there

fn with_made_by(names: NameSet, command: &Command) -> Result<NameSet, Memory>
    ensures { IfOk result (λ after. after ≡ names ++ spec.made_by command.now) }
{
    match command {
        Command::Resume { .. } => Ok(names),
        Command::Resubmit { name, .. } => names.with(name),
    }
}

fn with_made(names: NameSet, commands: &[Command]) -> Result<NameSet, Memory>
    ensures { IfOk result (λ after. after ≡ names ++ spec.made commands.now) }
{
    let mut after = names;
    for j in 0..commands.len() {
        after = with_made_by(after, &commands[j])?;
    }
    Ok(after)
}

fn with_named_in(names: NameSet, item: &Item) -> Result<NameSet, Memory>
    ensures { IfOk result (λ after. after ≡ names ++ spec.named_in item.now) }
{
    match item {
        Item::Workflow(manifest) => names.with(&manifest.name),
        _ => Ok(names),
    }
}

fn with_made_in(names: NameSet, item: &Item) -> Result<NameSet, Memory>
    ensures { IfOk result (λ after. after ≡ names ++ spec.made_in item.now) }
{
    match item {
        Item::Commands(commands) => with_made(names, commands.as_slice()),
        _ => Ok(names),
    }
}

fn workflow_names(alloc: Global, items: &[Item]) -> Result<NameSet, Memory>
    ensures { IfOk result (λ names. names ≡ spec.workflow_names items.now) }
{
    let mut names = NameSet::new(alloc);
    for i in 0..items.len() {
        names = with_named_in(names, &items[i])?;
    }
    Ok(names)
}

fn with_made_names(names: NameSet, items: &[Item]) -> Result<NameSet, Memory>
    ensures { IfOk result (λ after. after ≡ names ++ spec.made_names items.now) }
{
    let mut after = names;
    for i in 0..items.len() {
        after = with_made_in(after, &items[i])?;
    }
    Ok(after)
}

// ---- the places that name them

fn command_asked(
    alloc: Global,
    all: &NameSet,
    before: &NameSet,
    item: u32,
    position: usize,
    command: &Command,
) -> Result<Asked, Memory>
    ensures { IfOk result (λ asked. asked ≡ spec.command_asked all.now before.now item position command.now) }
{
    let at = member_at(alloc, "commands", position)?;
    match command {
        Command::Resume { workflow, .. } => Ok(Asked {
            item,
            path: at.field("resume")?,
            holds: all.has(workflow),
        }),
        Command::Resubmit { old, .. } => Ok(Asked {
            item,
            path: at.field("resubmit")?,
            holds: before.has(old),
        }),
    }
}

// Adds the places of commands, and gives the names that are there behind them.
fn add_commands(
    alloc: Global,
    places: &mut List<Asked>,
    all: &NameSet,
    before: NameSet,
    item: u32,
    commands: &[Command],
) -> Result<NameSet, Memory>
    ensures places { OnOk result
        (places.new ≡ places.old ++ spec.commands_asked all.now before item 0 commands.now) }
    ensures names { IfOk result (λ after. after ≡ before ++ spec.made commands.now) }
{
    let mut names = before;
    for j in 0..commands.len() {
        let command = &commands[j];
        places.push(command_asked(alloc, all, &names, item, j, command)?)?;
        names = with_made_by(names, command)?;
    }
    Ok(names)
}

fn add_step(
    alloc: Global,
    places: &mut List<Asked>,
    all: &NameSet,
    item: u32,
    position: usize,
    step: &Option<ScheduleStep>,
) -> Result<(), Memory>
    ensures { OnOk result (places.new ≡ places.old ++ spec.step_asked all.now item position step.now) }
{
    match step {
        Some(ScheduleStep::Give { workflow, .. }) => {
            let path = member_at(alloc, "steps", position)?.field("workflow")?;
            let holds = all.has(workflow);
            places.push(Asked { item, path, holds })
        }
        Some(ScheduleStep::GivePod { workflow, .. }) => {
            let pod = member_at(alloc, "steps", position)?.field("pod")?;
            let path = pod.field("workflow")?;
            let holds = all.has(workflow);
            places.push(Asked { item, path, holds })
        }
        _ => Ok(()),
    }
}

fn add_steps(
    alloc: Global,
    places: &mut List<Asked>,
    all: &NameSet,
    item: u32,
    steps: &[Option<ScheduleStep>],
) -> Result<(), Memory>
    ensures { OnOk result (places.new ≡ places.old ++ spec.steps_asked all.now item 0 steps.now) }
{
    for j in 0..steps.len() {
        add_step(alloc, places, all, item, j, &steps[j])?;
    }
    Ok(())
}

// Adds the places of an item, and gives the names that are there behind it.
fn add_item(
    alloc: Global,
    places: &mut List<Asked>,
    all: &NameSet,
    before: NameSet,
    position: u32,
    item: &Item,
) -> Result<NameSet, Memory>
    ensures places { OnOk result
        (places.new ≡ places.old ++ spec.item_asked all.now before position item.now) }
    ensures names { IfOk result (λ after. after ≡ before ++ spec.made_in item.now) }
{
    match item {
        Item::Commands(commands) => {
            add_commands(alloc, places, all, before, position, commands.as_slice())
        }
        Item::Schedule(schedule) => {
            add_steps(alloc, places, all, position, schedule.steps.as_slice())?;
            Ok(before)
        }
        _ => Ok(before),
    }
}

// The places of all items.
fn places_of(
    alloc: Global,
    all: &NameSet,
    known: NameSet,
    items: &[Item],
) -> Result<List<Asked>, Memory>
    requires few { length items.now ≤ most_list_items }
    ensures { IfOk result (λ places. places ≡ spec.items_asked all.now known 0 items.now) }
{
    let mut before = known;
    let mut places = List::new(alloc);
    for i in 0..items.len() {
        before = add_item(alloc, &mut places, all, before, i as u32, &items[i])?;
    }
    Ok(places)
}

/// Refuses the first command or step of a schedule that names a workflow which is not there. A workflow is there by a
/// resource or by a resubmission, wherever it stands; a resubmission is of one that is there by a resource or by a
/// resubmission before it.
pub fn ask_names(alloc: Global, items: &[Item]) -> Result<(), BundleRefused>
    requires few { length items.now ≤ most_list_items }
    ensures { Finds result (spec.names_asked items.now) }
{
    let known = workflow_names(alloc, items)?;
    let all = with_made_names(workflow_names(alloc, items)?, items)?;
    let places = places_of(alloc, &all, known, items)?;
    refuse_first(NO_WORKFLOW, places.as_slice())
}
