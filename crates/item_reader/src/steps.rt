//! The steps of a schedule.

ghost use Rattle.std.specs.Prelude.{◌≡◌, map};
ghost use Rattle.serde_json.specs.View.{view};
ghost use Rattle.field_kinds.specs.Refusing.{Reads};
ghost use Rattle.item_reader.specs.Schedules as reads;

use crate::ScheduleStep;
use base_types::Text;
use base_types::limits::LATEST_TICK;
use field_kinds::rules::BAD_SCHEDULE;
use field_kinds::{
    FieldPath, Fields, KindRefused, Object, Readable, has, refused_at, required, required_number,
    required_text,
};
use serde_json::Value;
use std::alloc::Global;

fn hand(step: &Value, name: &str, at: &FieldPath) -> Result<u32, KindRefused>
    ensures { Reads result (reads.hand name.now at.now (view step.now)) }
{
    Ok(required_number(step, name, 0, u32::MAX as u64, at)? as u32)
}

#[tactic(auto, unfolding(crate::specs::Schedules::give))]
fn give(alloc: Global, step: &Value, at: &FieldPath) -> Result<ScheduleStep, KindRefused>
    ensures { Reads result (reads.give at.now (view step.now)) }
{
    Ok(ScheduleStep::Give {
        hand: hand(step, "give", at)?,
        workflow: required_text(alloc, step, "workflow", at)?,
    })
}

// The pod of a runner's job.
#[derive(Drop)]
pub(crate) struct PodSaid {
    workflow: Text,
    node: Text,
}

impl Fields for PodSaid {
    type Made = PodSaid;

    type Around = ();

    ghost fields = { λ _. reads.pod_fields };

    #[tactic(auto, unfolding(crate::specs::Schedules::pod_fields))]
    fn read_fields(
        alloc: Global,
        pod: &Value,
        at: &FieldPath,
        _around: &(),
    ) -> Result<PodSaid, KindRefused> {
        Ok(PodSaid {
            workflow: required_text(alloc, pod, "workflow", at)?,
            node: required_text(alloc, pod, "node", at)?,
        })
    }
}

#[tactic(auto, unfolding(crate::specs::Schedules::give_pod))]
fn give_pod(alloc: Global, step: &Value, at: &FieldPath) -> Result<ScheduleStep, KindRefused>
    ensures { Reads result (reads.give_pod at.now (view step.now)) }
{
    let hand = hand(step, "give", at)?;
    let pod = required::<Object<PodSaid>>(alloc, step, "pod", at, &())?;
    Ok(ScheduleStep::GivePod {
        hand,
        workflow: pod.workflow,
        node: pod.node,
    })
}

#[tactic(auto, unfolding(crate::specs::Schedules::make_step))]
fn make_step(step: &Value, at: &FieldPath) -> Result<ScheduleStep, KindRefused>
    ensures { Reads result (reads.make_step at.now (view step.now)) }
{
    Ok(ScheduleStep::Step {
        hand: hand(step, "step", at)?,
    })
}

#[tactic(auto, unfolding(crate::specs::Schedules::restart))]
fn restart(step: &Value, at: &FieldPath) -> Result<ScheduleStep, KindRefused>
    ensures { Reads result (reads.restart at.now (view step.now)) }
{
    Ok(ScheduleStep::Restart {
        hand: hand(step, "restart", at)?,
    })
}

#[tactic(auto, unfolding(crate::specs::Schedules::lag))]
fn lag(step: &Value, at: &FieldPath) -> Result<ScheduleStep, KindRefused>
    ensures { Reads result (reads.lag at.now (view step.now)) }
{
    Ok(ScheduleStep::Lag {
        hand: hand(step, "lag", at)?,
        back: required_number(step, "back", 0, LATEST_TICK, at)?,
    })
}

#[tactic(auto, unfolding(crate::specs::Schedules::move_to))]
fn move_to(step: &Value, at: &FieldPath) -> Result<ScheduleStep, KindRefused>
    ensures { Reads result (reads.move_to at.now (view step.now)) }
{
    Ok(ScheduleStep::Tick {
        to: required_number(step, "tick", 0, LATEST_TICK, at)?,
    })
}

fn has_all(step: &Value, names: &[&str]) -> bool
    ensures { result ≡ reads.has_all (map (λ name. name.now) names.now) (view step.now) }
{
    for i in 0..names.len() {
        if !has(step, names[i]) {
            return false;
        }
    }
    true
}

fn has_none(step: &Value, names: &[&str]) -> bool
    ensures { result ≡ reads.has_none (map (λ name. name.now) names.now) (view step.now) }
{
    for i in 0..names.len() {
        if has(step, names[i]) {
            return false;
        }
    }
    true
}

fn is_give(step: &Value) -> bool
    ensures { result ≡ reads.is_give (view step.now) }
{
    has_all(step, &["give", "workflow"])
        && has_none(step, &["pod", "step", "restart", "lag", "back", "tick"])
}

fn is_give_pod(step: &Value) -> bool
    ensures { result ≡ reads.is_give_pod (view step.now) }
{
    has_all(step, &["give", "pod"])
        && has_none(
            step,
            &["workflow", "step", "restart", "lag", "back", "tick"],
        )
}

fn is_lag(step: &Value) -> bool
    ensures { result ≡ reads.is_lag (view step.now) }
{
    has_all(step, &["lag", "back"])
        && has_none(
            step,
            &["give", "workflow", "pod", "step", "restart", "tick"],
        )
}

fn has_no_more(step: &Value) -> bool
    ensures { result ≡ reads.has_no_more (view step.now) }
{
    has_none(step, &["give", "workflow", "pod", "lag", "back"])
}

fn is_step(step: &Value) -> bool
    ensures { result ≡ reads.is_step (view step.now) }
{
    has(step, "step") && has_none(step, &["restart", "tick"]) && has_no_more(step)
}

fn is_restart(step: &Value) -> bool
    ensures { result ≡ reads.is_restart (view step.now) }
{
    has(step, "restart") && has_none(step, &["step", "tick"]) && has_no_more(step)
}

fn is_tick(step: &Value) -> bool
    ensures { result ≡ reads.is_tick (view step.now) }
{
    has(step, "tick") && has_none(step, &["step", "restart"]) && has_no_more(step)
}

// The step of whose form exactly the fields are there.
fn step_by(alloc: Global, step: &Value, at: &FieldPath) -> Result<ScheduleStep, KindRefused>
    ensures { Reads result (reads.step_by at.now (view step.now)) }
{
    if is_give(step) {
        give(alloc, step, at)
    } else if is_give_pod(step) {
        give_pod(alloc, step, at)
    } else if is_step(step) {
        make_step(step, at)
    } else if is_restart(step) {
        restart(step, at)
    } else if is_lag(step) {
        lag(step, at)
    } else if is_tick(step) {
        move_to(step, at)
    } else {
        Err(refused_at(BAD_SCHEDULE, at)?)
    }
}

// A step, or none where it is of none of the forms.
pub(crate) struct StepSaid;

impl Readable for StepSaid {
    type Made = Option<ScheduleStep>;

    type Around = ();

    ghost kind = { λ _. reads.step_said };

    fn read(
        alloc: Global,
        value: &Value,
        at: &FieldPath,
        _around: &(),
    ) -> Result<Option<ScheduleStep>, KindRefused> {
        match step_by(alloc, value, at) {
            Ok(step) => Ok(Some(step)),
            Err(KindRefused::Rule { .. }) => Ok(None),
            Err(KindRefused::Memory) => Err(KindRefused::Memory),
        }
    }
}
