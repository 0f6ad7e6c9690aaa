//! The workflows of a document.

ghost use Rattle.std.specs.Prelude.{◌≡◌, map, string_bytes, IfOk};
ghost use Rattle.serde_json.specs.View.{view};
ghost use Rattle.generator.specs.Bundles as bundles;

use crate::draws::{Drawn, Shape};
use crate::fields::Fields;
use crate::templates::{called, main, pair};
use base_types::Memory;
use serde_json::{Value, json};
use std::alloc::Global;

/// The name of the workflow at a position.
#[tactic(auto, unfolding(crate::specs::Bundles::name), using(std::proofs::lemmas::Fmt::decimal_digit))]
pub(crate) fn name(alloc: Global, position: u32) -> Result<String, Memory>
    ensures { IfOk result (λ name. string_bytes name ≡ bundles.name position) }
{
    let (first, second) = (position / 10000 % 10, position / 1000 % 10);
    let (third, fourth) = (position / 100 % 10, position / 10 % 10);
    let fifth = position % 10;
    Ok(format!(in alloc; "g-{first}{second}{third}{fourth}{fifth}")?)
}

fn spec(alloc: Global, shape: Shape) -> Result<Value, Memory>
    ensures { IfOk result (λ value. view value ≡ bundles.spec shape) }
{
    let main = main(alloc, shape)?;
    let called = called(alloc)?;
    let templates = pair(alloc, main, called)?;
    Ok(json!(in alloc; {"entrypoint": "main", "templates": templates})?)
}

fn metadata(alloc: Global, name: &str) -> Result<Value, Memory>
    ensures { IfOk result (λ value. view value ≡ bundles.metadata name.now) }
{
    Ok(json!(in alloc; {"name": name})?)
}

fn workflow_named(alloc: Global, name: &str, shape: Shape) -> Result<Value, Memory>
    ensures { IfOk result (λ value. view value ≡ bundles.workflow_named name.now shape) }
{
    let metadata = metadata(alloc, name)?;
    let spec = spec(alloc, shape)?;
    let workflow = Fields::new(alloc)
        .text("apiVersion", "argoproj.io/v1alpha1")?
        .text("kind", "Workflow")?
        .value("metadata", metadata)?
        .value("spec", spec)?;
    Ok(workflow.into_value())
}

#[tactic(auto, unfolding(crate::specs::Bundles::workflow))]
fn workflow(alloc: Global, drawn: Drawn) -> Result<Value, Memory>
    ensures { IfOk result (λ value. view value ≡ bundles.workflow drawn) }
{
    let name = name(alloc, drawn.position)?;
    workflow_named(alloc, name.as_str(), drawn.shape)
}

/// The workflows in their order.
pub(crate) fn workflows(alloc: Global, drawn: &[Drawn]) -> Result<Vec<Value>, Memory>
    ensures { IfOk result (λ values. map view values.items ≡ map bundles.workflow drawn.now) }
{
    let mut values = Vec::new(alloc);
    for one in drawn {
        values.push(workflow(alloc, *one)?)?;
    }
    Ok(values)
}
