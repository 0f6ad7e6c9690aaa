//! How the pods of a document end.

ghost use Rattle.std.specs.Prelude.{◌≡◌, [], ◌∷◌, ◌++◌, codes, map, flat_map, IfOk, OnOk};
ghost use Rattle.serde_json.specs.View.{view};
ghost use Rattle.generator.specs.Bundles as bundles;

use crate::draws::{Drawn, Shape};
use crate::fields::Fields;
use crate::workflows::name;
use base_types::Memory;
use serde_json::{Value, json};
use std::alloc::Global;

// The node of the pod that may fail, behind the workflow's name.
fn failing_node(shape: Shape) -> &'static str
    ensures { result.now ≡ bundles.failing_node shape }
{
    match shape {
        Shape::Pod => "",
        Shape::Steps => "[1].b",
        Shape::Dag => ".B",
        Shape::Loop(_) => "[0].each(0:0)",
    }
}

fn pod_named(alloc: Global, name: &str, shape: Shape) -> Result<Value, Memory>
    ensures { IfOk result (λ value. view value ≡ bundles.pod_named name.now shape) }
{
    let behind = failing_node(shape);
    let node = format!(in alloc; "{name}{behind}")?;
    Ok(json!(in alloc; {"workflow": name, "node": node, "phase": "Failed"})?)
}

#[tactic(auto, unfolding(crate::specs::Bundles::pods_of))]
fn add_pod(alloc: Global, pods: &mut Vec<Value>, drawn: Drawn) -> Result<(), Memory>
    ensures { OnOk result (map view pods.new.items ≡ map view pods.old.items ++ bundles.pods_of drawn) }
{
    if drawn.fails {
        let name = name(alloc, drawn.position)?;
        pods.push(pod_named(alloc, name.as_str(), drawn.shape)?)?;
    }
    Ok(())
}

fn pods(alloc: Global, drawn: &[Drawn]) -> Result<Vec<Value>, Memory>
    ensures { IfOk result (λ pods. map view pods.items ≡ flat_map bundles.pods_of drawn.now) }
{
    let mut pods = Vec::new(alloc);
    for one in drawn {
        add_pod(alloc, &mut pods, *one)?;
    }
    Ok(pods)
}

fn success(alloc: Global) -> Result<Value, Memory>
    ensures { IfOk result (λ value. view value ≡ bundles.success) }
{
    Ok(json!(in alloc; {"phase": "Succeeded"})?)
}

fn all_succeed(alloc: Global) -> Result<Value, Memory>
    ensures { IfOk result (λ value. view value ≡ bundles.outcomes_with []) }
{
    let default = success(alloc)?;
    Ok(json!(in alloc; {"kind": "PodOutcomes", "default": default})?)
}

fn these_fail(alloc: Global, pods: Value) -> Result<Value, Memory>
    ensures { IfOk result (λ value. view value
        ≡ bundles.outcomes_with ((codes "pods", view pods) ∷ [])) }
{
    let default = success(alloc)?;
    let outcomes = Fields::new(alloc)
        .value("default", default)?
        .text("kind", "PodOutcomes")?
        .value("pods", pods)?;
    Ok(outcomes.into_value())
}

fn outcomes_by(alloc: Global, pods: Vec<Value>) -> Result<Value, Memory>
    ensures { IfOk result (λ value. view value ≡ bundles.outcomes (map view pods.items)) }
{
    if pods.is_empty() {
        all_succeed(alloc)
    } else {
        these_fail(alloc, Value::Array(pods))
    }
}

/// The resource that says which pods fail.
pub(crate) fn outcomes(alloc: Global, drawn: &[Drawn]) -> Result<Value, Memory>
    ensures { IfOk result (λ value. view value
        ≡ bundles.outcomes (flat_map bundles.pods_of drawn.now)) }
{
    let pods = pods(alloc, drawn)?;
    outcomes_by(alloc, pods)
}
