//! What `PodOutcomes` plan.

ghost use Rattle.std.specs.Prelude.{◌≡◌};
ghost use Rattle.serde_json.specs.View.{view};
ghost use Rattle.field_kinds.specs.Refusing.{Reads};
ghost use Rattle.item_reader.specs.PodOutcomes as reads;

use crate::PlannedOutcome;
use crate::ends::{EndWord, PodEnd};
use base_types::limits::MOST_SECONDS;
use base_types::{List, Text};
use field_kinds::{
    AnyText, FieldPath, Fields, Keyed, KindRefused, Object, Readable, all_or_empty, flag_or,
    map_of, number_or, optional, optional_any_text, required_text, required_text_by,
};
use serde_json::Value;
use std::alloc::Global;
use template_reader::ResourceName;
use tree_types::{Param, Params};

/// What is planned for the pod of a workflow's node.
#[derive(Debug, Drop)]
pub struct PlannedPod {
    pub workflow: Text,
    pub node: Text,
    pub outcome: PlannedOutcome,
}

/// A list of plans for pods.
pub type PlannedPods = List<PlannedPod>;

/// What a document plans: for some pods by name, and for the others.
#[derive(Debug, Drop)]
pub struct Plan {
    pub default: Option<PlannedOutcome>,
    pub pods: PlannedPods,
}

// An output parameter.
struct OutputText;

impl Keyed for OutputText {
    type Made = Param;

    type Around = ();

    ghost entry = { λ _. reads.output };

    #[tactic(auto, unfolding(crate::specs::PodOutcomes::output))]
    fn read_entry(
        alloc: Global,
        key: &str,
        value: &Value,
        at: &FieldPath,
        around: &(),
    ) -> Result<Param, KindRefused> {
        let value = AnyText::read(alloc, value, at, around)?;
        let name = Text::from_text(alloc, key)?;
        Ok(Param { name, value })
    }
}

// Output parameters by their names.
struct OutputTexts;

impl Readable for OutputTexts {
    type Made = Params;

    type Around = ();

    ghost kind = { λ _. reads.outputs };

    fn read(
        alloc: Global,
        value: &Value,
        at: &FieldPath,
        around: &(),
    ) -> Result<Params, KindRefused> {
        map_of::<OutputText>(alloc, value, at, around)
    }
}

fn outputs_or_none(alloc: Global, outcome: &Value, at: &FieldPath) -> Result<Params, KindRefused>
    ensures { Reads result (reads.outputs_or_none at.now (view outcome.now)) }
{
    match optional::<OutputTexts>(alloc, outcome, "parameters", at, &())? {
        Some(outputs) => Ok(outputs),
        None => Ok(List::new(alloc)),
    }
}

// What an outcome says beside its end.
#[derive(Drop)]
struct Left {
    result: Option<Text>,
    params: Params,
    transient: bool,
    seconds: u64,
}

fn outcome_by(end: PodEnd, left: Left) -> PlannedOutcome
    ensures { result ≡ reads.outcome_by end left }
{
    PlannedOutcome {
        phase: end.phase(),
        result: left.result,
        params: left.params,
        transient: left.transient,
        seconds: left.seconds,
    }
}

impl Fields for PlannedOutcome {
    type Made = PlannedOutcome;

    type Around = ();

    ghost fields = { λ _. reads.outcome_fields };

    #[tactic(auto, unfolding(crate::specs::PodOutcomes::outcome_fields))]
    fn read_fields(
        alloc: Global,
        outcome: &Value,
        at: &FieldPath,
        _around: &(),
    ) -> Result<PlannedOutcome, KindRefused> {
        let end = required_text_by::<EndWord>(alloc, outcome, "phase", at)?;
        let left = Left {
            result: optional_any_text(alloc, outcome, "result", at)?,
            params: outputs_or_none(alloc, outcome, at)?,
            transient: flag_or(outcome, "transient", false, at)?,
            seconds: number_or(outcome, "seconds", 0, MOST_SECONDS, 0, at)?,
        };
        Ok(outcome_by(end, left))
    }
}

impl Fields for PlannedPod {
    type Made = PlannedPod;

    type Around = ();

    ghost fields = { λ _. reads.pod_fields };

    #[tactic(auto, unfolding(crate::specs::PodOutcomes::pod_fields))]
    fn read_fields(
        alloc: Global,
        pod: &Value,
        at: &FieldPath,
        around: &(),
    ) -> Result<PlannedPod, KindRefused> {
        let outcome = PlannedOutcome::read_fields(alloc, pod, at, around)?;
        Ok(PlannedPod {
            workflow: required_text_by::<ResourceName>(alloc, pod, "workflow", at)?,
            node: required_text(alloc, pod, "node", at)?,
            outcome,
        })
    }
}

impl Fields for Plan {
    type Made = Plan;

    type Around = ();

    ghost fields = { λ _. reads.plan_fields };

    #[tactic(auto, unfolding(crate::specs::PodOutcomes::plan_fields))]
    fn read_fields(
        alloc: Global,
        plan: &Value,
        at: &FieldPath,
        _around: &(),
    ) -> Result<Plan, KindRefused> {
        Ok(Plan {
            default: optional::<Object<PlannedOutcome>>(alloc, plan, "default", at, &())?,
            pods: all_or_empty::<Object<PlannedPod>>(alloc, plan, "pods", at, &())?,
        })
    }
}
