//! The steps of schedules.

ghost use Rattle.std.specs.Prelude.{◌≡◌, ◌≤◌, ◌++◌, length, OnOk};
ghost use Rattle.base_types.specs.Limits.{most_list_items};
ghost use Rattle.bundle_rules.specs.Findings.{Finds};
ghost use Rattle.bundle_rules.specs.Schedules as spec;

use crate::BundleRefused;
use crate::asked::{Asked, refuse_first};
use crate::seconds::member_at;
use base_types::{List, Memory};
use field_kinds::rules::BAD_SCHEDULE;
use item_reader::{Item, ScheduleStep};
use std::alloc::Global;

fn is_of_hands(workers: u32, step: &ScheduleStep) -> bool
    ensures { result ≡ spec.is_of_hands workers step.now }
{
    match step {
        ScheduleStep::Give { hand, .. }
        | ScheduleStep::GivePod { hand, .. }
        | ScheduleStep::Step { hand }
        | ScheduleStep::Restart { hand }
        | ScheduleStep::Lag { hand, .. } => *hand < workers,
        ScheduleStep::Tick { .. } => true,
    }
}

fn is_step(workers: u32, step: &Option<ScheduleStep>) -> bool
    ensures { result ≡ spec.is_step workers step.now }
{
    match step {
        None => false,
        Some(step) => is_of_hands(workers, step),
    }
}

fn add_hands(
    alloc: Global,
    places: &mut List<Asked>,
    workers: u32,
    item: u32,
    steps: &[Option<ScheduleStep>],
) -> Result<(), Memory>
    ensures { OnOk result (places.new ≡ places.old ++ spec.hands_asked workers item 0 steps.now) }
{
    for j in 0..steps.len() {
        let path = member_at(alloc, "steps", j)?;
        let holds = is_step(workers, &steps[j]);
        places.push(Asked { item, path, holds })?;
    }
    Ok(())
}

fn add_schedule(
    alloc: Global,
    places: &mut List<Asked>,
    position: u32,
    item: &Item,
) -> Result<(), Memory>
    ensures { OnOk result (places.new ≡ places.old ++ spec.schedule_asked position item.now) }
{
    match item {
        Item::Schedule(schedule) => add_hands(
            alloc,
            places,
            schedule.workers,
            position,
            schedule.steps.as_slice(),
        ),
        _ => Ok(()),
    }
}

/// Refuses the first step of a schedule that is of none of the forms, or whose hand is not below `workers`.
pub fn ask_schedules(alloc: Global, items: &[Item]) -> Result<(), BundleRefused>
    requires few { length items.now ≤ most_list_items }
    ensures { Finds result (spec.schedules_asked items.now) }
{
    let mut places = List::new(alloc);
    for i in 0..items.len() {
        add_schedule(alloc, &mut places, i as u32, &items[i])?;
    }
    refuse_first(BAD_SCHEDULE, places.as_slice())
}
