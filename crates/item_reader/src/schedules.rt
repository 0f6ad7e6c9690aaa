//! Schedules: which hand does what, one step after the other.

ghost use Rattle.std.specs.Prelude.{◌≡◌};
ghost use Rattle.serde_json.specs.View.{view};
ghost use Rattle.field_kinds.specs.Refusing.{Reads};
ghost use Rattle.item_reader.specs.Schedules as reads;

use crate::steps::StepSaid;
use base_types::limits::{MOST_SCHEDULE_STEPS, MOST_WORKERS};
use base_types::{List, Text};
use field_kinds::{FieldPath, Fields, KindRefused, list_or_empty, number_or};
use serde_json::Value;
use std::alloc::Global;

/// A step of a schedule. Hands are numbered from 0.
#[derive(Debug, Drop)]
pub enum ScheduleStep {
    /// A hand gets a worker's job.
    Give {
        hand: u32,
        workflow: Text,
    },
    /// A hand gets a runner's job.
    GivePod {
        hand: u32,
        workflow: Text,
        node: Text,
    },
    /// A hand makes one step of its job.
    Step {
        hand: u32,
    },
    /// A hand forgets all.
    Restart {
        hand: u32,
    },
    /// The next get of a hand answers a version lower by `back`.
    Lag {
        hand: u32,
        back: u64,
    },
    /// The clock moves.
    Tick {
        to: u64,
    },
}

/// The hands and the steps. A member of the list that is none of the forms of a step is None.
#[derive(Debug, Drop)]
pub struct Schedule {
    /// From 1 to 64.
    pub workers: u32,
    pub steps: List<Option<ScheduleStep>>,
}

fn workers(schedule: &Value, at: &FieldPath) -> Result<u32, KindRefused>
    ensures { Reads result (reads.workers at.now (view schedule.now)) }
{
    Ok(number_or(schedule, "workers", 1, MOST_WORKERS as u64, 1, at)? as u32)
}

impl Fields for Schedule {
    type Made = Schedule;

    type Around = ();

    ghost fields = { λ _. reads.schedule_fields };

    #[tactic(auto, unfolding(crate::specs::Schedules::schedule_fields))]
    fn read_fields(
        alloc: Global,
        schedule: &Value,
        at: &FieldPath,
        _around: &(),
    ) -> Result<Schedule, KindRefused> {
        Ok(Schedule {
            workers: workers(schedule, at)?,
            steps: list_or_empty::<StepSaid>(
                alloc,
                schedule,
                "steps",
                MOST_SCHEDULE_STEPS,
                at,
                &(),
            )?,
        })
    }
}
