//! The second pass over a document: each workflow by itself.

ghost use Rattle.std.specs.Prelude.{◌≡◌, ◌≤◌, length, IfOk, OnOk};
ghost use Rattle.base_types.specs.Limits.{most_list_items};
ghost use Rattle.wf_check.specs.Verdicts.{verdict};
ghost use Rattle.bundle_rules.specs.Findings.{Finds, of_item};
ghost use Rattle.wf_bundle.specs.Documents.{item_checked};
ghost use Rattle.wf_bundle.specs.Inside.Parts.{Passes, parts_in, joined, taken};

use crate::parts::Parts;
use base_types::List;
use bundle_rules::{BundleRefused, of_item};
use item_reader::Item;
use std::alloc::Global;
use wf_check::{Valid, check};
use wf_manifest::Manifest;
use wf_places::LockLimits;

fn workflow(
    alloc: Global,
    limits: &LockLimits<'_>,
    position: u32,
    manifest: Manifest,
) -> Result<Valid, BundleRefused>
    ensures same { IfOk result (λ valid. valid ≡ manifest) }
    ensures checked { Passes result (of_item position (verdict limits.now manifest)) }
{
    match check(alloc, limits, manifest) {
        Ok(valid) => Ok(valid),
        Err(refused) => Err(of_item(position, refused)),
    }
}

fn add_item(
    alloc: Global,
    limits: &LockLimits<'_>,
    parts: &mut Parts,
    position: u32,
    item: Item,
) -> Result<(), BundleRefused>
    ensures checked { Passes result (item_checked limits.now position item) }
    ensures added { OnOk result (parts.new ≡ joined parts.old (parts_in item)) }
{
    match item {
        Item::Workflow(manifest) => parts
            .workflows
            .push(workflow(alloc, limits, position, manifest)?)?,
        Item::Config(config) => parts.configs.push(config)?,
        Item::Outcomes(plan) => parts.plans.push(plan)?,
        Item::Commands(commands) => parts.commands.push(commands)?,
        Item::Schedule(schedule) => parts.schedules.push(schedule)?,
    }
    Ok(())
}

/// The items by their kinds, where no rule finds anything in a workflow. The semaphores of `limits` have limits.
#[tactic(auto, using(crate::proofs::Accepted::taken_more, crate::proofs::Accepted::refused_later))]
pub(crate) fn check_items(
    alloc: Global,
    limits: &LockLimits<'_>,
    items: List<Item>,
) -> Result<Parts, BundleRefused>
    requires few { length items ≤ most_list_items }
    ensures { Finds result (taken limits.now items) }
{
    let mut parts = Parts::new(alloc);
    let mut position: u32 = 0;
    for item in items.into_vec() {
        add_item(alloc, limits, &mut parts, position, item)?;
        position += 1;
    }
    Ok(parts)
}
