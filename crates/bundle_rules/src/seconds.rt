//! What a document says twice.

ghost use Rattle.std.specs.Prelude.{◌≡◌, ◌≤◌, ◌++◌, ◌∷◌, [], length, IfOk, OnOk};
ghost use Rattle.base_types.specs.Limits.{most_list_items};
ghost use Rattle.bundle_rules.specs.Findings.{Finds};
ghost use Rattle.bundle_rules.specs.Claims as spec;

use crate::BundleRefused;
use crate::claims::{Claim, Spot, add};
use base_types::{List, Memory, Text, TryCopy};
use field_kinds::rules::SECOND;
use indexmap::IndexSet;
use item_reader::{Command, Item, PlannedPod};
use json_fields::FieldPath;
use std::alloc::Global;

// The path of a member of a list of the item.
pub(crate) fn member_at(alloc: Global, list: &str, position: usize) -> Result<FieldPath, Memory>
    ensures { IfOk result (λ path. path ≡ spec.member_at list.now position) }
{
    FieldPath::root(alloc).field(list)?.member(position)
}

fn add_pods(
    alloc: Global,
    spots: &mut List<Spot>,
    item: u32,
    pods: &[PlannedPod],
) -> Result<(), Memory>
    ensures { OnOk result (spots.new ≡ spots.old ++ spec.pod_spots item 0 pods.now) }
{
    for j in 0..pods.len() {
        let pod = &pods[j];
        let claim = Claim::Pod(pod.workflow.copy()?, pod.node.copy()?);
        let path = member_at(alloc, "pods", j)?;
        spots.push(Spot { item, path, claim })?;
    }
    Ok(())
}

fn add_command(
    alloc: Global,
    spots: &mut List<Spot>,
    item: u32,
    position: usize,
    command: &Command,
) -> Result<(), Memory>
    ensures { OnOk result (spots.new ≡ spots.old ++ spec.command_spots item position command.now) }
{
    if let Command::Resubmit { name, .. } = command {
        let claim = Claim::Workflow(name.copy()?);
        let path = member_at(alloc, "commands", position)?.field("name")?;
        spots.push(Spot { item, path, claim })?;
    }
    Ok(())
}

// The workflows that resubmissions make.
pub(crate) fn add_resubmissions(
    alloc: Global,
    spots: &mut List<Spot>,
    item: u32,
    commands: &[Command],
) -> Result<(), Memory>
    ensures { OnOk result (spots.new ≡ spots.old ++ spec.resubmission_spots item 0 commands.now) }
{
    for j in 0..commands.len() {
        add_command(alloc, spots, item, j, &commands[j])?;
    }
    Ok(())
}

// A place that is the item as a whole.
pub(crate) fn add_whole(
    alloc: Global,
    spots: &mut List<Spot>,
    item: u32,
    claim: Claim,
) -> Result<(), Memory>
    ensures { OnOk result (spots.new ≡ spots.old ++ spec.spot item [] claim ∷ []) }
{
    spots.push(Spot {
        item,
        path: FieldPath::root(alloc),
        claim,
    })
}

fn add_item(alloc: Global, spots: &mut List<Spot>, position: u32, item: &Item) -> Result<(), Memory>
    ensures { OnOk result (spots.new ≡ spots.old ++ spec.item_spots position item.now) }
{
    match item {
        Item::Workflow(manifest) => {
            add_whole(
                alloc,
                spots,
                position,
                Claim::Workflow(manifest.name.copy()?),
            )
        }
        Item::Config(config) => add_whole(
            alloc,
            spots,
            position,
            Claim::Config(config.name.copy()?),
        ),
        Item::Outcomes(plan) => {
            add_whole(alloc, spots, position, Claim::Outcomes)?;
            add_pods(alloc, spots, position, plan.pods.as_slice())
        }
        Item::Commands(commands) => {
            add_whole(alloc, spots, position, Claim::Commands)?;
            add_resubmissions(alloc, spots, position, commands.as_slice())
        }
        Item::Schedule(_) => add_whole(alloc, spots, position, Claim::Schedule),
    }
}

fn spots_of(alloc: Global, items: &[Item]) -> Result<List<Spot>, Memory>
    requires few { length items.now ≤ most_list_items }
    ensures { IfOk result (λ spots. spots ≡ spec.spots 0 items.now) }
{
    let mut spots = List::new(alloc);
    for i in 0..items.len() {
        add_item(alloc, &mut spots, i as u32, &items[i])?;
    }
    Ok(spots)
}

/// Refuses the first place that says what was said before: the later of two `PodOutcomes`, `Commands` or `Schedule`, of two
/// workflows (with those of resubmissions) or two ConfigMaps of one name, or of two outcomes for one pod.
pub fn ask_seconds(alloc: Global, items: &[Item]) -> Result<(), BundleRefused>
    requires few { length items.now ≤ most_list_items }
    ensures { Finds result (spec.seconds_asked items.now) }
{
    let mut claims = IndexSet::new(alloc);
    for spot in spots_of(alloc, items)?.into_vec() {
        if !add(&mut claims, spot.claim)? {
            return Err(BundleRefused::Rule {
                item: spot.item,
                rule: SECOND,
                field: spot.path,
            });
        }
    }
    Ok(())
}
