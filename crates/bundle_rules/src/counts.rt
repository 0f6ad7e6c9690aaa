//! How many workflows a document has.

ghost use Rattle.std.specs.Prelude.{◌≡◌, ◌≤◌, ◌++◌, length, OnOk};
ghost use Rattle.base_types.specs.Limits.{most_list_items};
ghost use Rattle.bundle_rules.specs.Findings.{Finds};
ghost use Rattle.bundle_rules.specs.Counts as spec;

use crate::BundleRefused;
use crate::claims::{Claim, Spot};
use crate::seconds::{add_resubmissions, add_whole};
use base_types::limits::MOST_WORKFLOWS;
use base_types::{List, Memory, TryCopy};
use field_kinds::rules::TOO_MANY;
use item_reader::Item;
use std::alloc::Global;

fn add_workflows(alloc: Global, spots: &mut List<Spot>, items: &[Item]) -> Result<(), Memory>
    requires few { length items.now ≤ most_list_items }
    ensures { OnOk result (spots.new ≡ spots.old ++ spec.workflow_spots 0 items.now) }
{
    for i in 0..items.len() {
        if let Item::Workflow(manifest) = &items[i] {
            add_whole(
                alloc,
                spots,
                i as u32,
                Claim::Workflow(manifest.name.copy()?),
            )?;
        }
    }
    Ok(())
}

fn add_made(alloc: Global, spots: &mut List<Spot>, items: &[Item]) -> Result<(), Memory>
    requires few { length items.now ≤ most_list_items }
    ensures { OnOk result (spots.new ≡ spots.old ++ spec.made_spots 0 items.now) }
{
    for i in 0..items.len() {
        if let Item::Commands(commands) = &items[i] {
            return add_resubmissions(alloc, spots, i as u32, commands.as_slice());
        }
    }
    Ok(())
}

/// Refuses the 501st workflow: the workflows of the document in the order of the items, then those that the first commands
/// make.
pub fn count_workflows(alloc: Global, items: &[Item]) -> Result<(), BundleRefused>
    requires few { length items.now ≤ most_list_items }
    ensures { Finds result (spec.workflows_counted items.now) }
{
    let mut spots = List::new(alloc);
    add_workflows(alloc, &mut spots, items)?;
    add_made(alloc, &mut spots, items)?;
    if spots.len() <= MOST_WORKFLOWS {
        return Ok(());
    }
    let spot = spots.get(MOST_WORKFLOWS);
    Err(BundleRefused::Rule {
        item: spot.item,
        rule: TOO_MANY,
        field: spot.path.copy()?,
    })
}
