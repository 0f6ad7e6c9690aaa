//! The templates of workflows.

ghost use Rattle.std.specs.Prelude.{◌≡◌, [], ◌∷◌, IfOk};
ghost use Rattle.serde_json.specs.Data.{string};
ghost use Rattle.serde_json.specs.View.{view};
ghost use Rattle.generator.specs.declared.draws.Shape.TheVariants as shape;
ghost use Rattle.generator.specs.Bundles as bundles;

use crate::draws::Shape;
use base_types::Memory;
use serde_json::{Value, json};
use std::alloc::Global;

/// A list of two.
pub(crate) fn pair(alloc: Global, first: Value, second: Value) -> Result<Value, Memory>
    ensures { IfOk result (λ value. view value ≡ bundles.list (view first ∷ view second ∷ [])) }
{
    Ok(Value::Array(vec![in alloc; first, second]?))
}

fn container(alloc: Global) -> Result<Value, Memory>
    ensures { IfOk result (λ value. view value ≡ bundles.container) }
{
    Ok(json!(in alloc; {"image": "i"})?)
}

/// The template that all others call.
pub(crate) fn called(alloc: Global) -> Result<Value, Memory>
    ensures { IfOk result (λ value. view value ≡ bundles.called) }
{
    let container = container(alloc)?;
    Ok(json!(in alloc; {"name": "c", "container": container})?)
}

fn step(alloc: Global, name: &str) -> Result<Value, Memory>
    ensures { IfOk result (λ value. view value ≡ bundles.step name.now) }
{
    Ok(json!(in alloc; {"name": name, "template": "c"})?)
}

fn first_group(alloc: Global) -> Result<Value, Memory>
    ensures { IfOk result (λ value. view value ≡ bundles.first_group) }
{
    let a = step(alloc, "a")?;
    Ok(json!(in alloc; [a])?)
}

fn second_group(alloc: Global) -> Result<Value, Memory>
    ensures { IfOk result (λ value. view value ≡ bundles.second_group) }
{
    let b = step(alloc, "b")?;
    let c = step(alloc, "c")?;
    pair(alloc, b, c)
}

fn groups(alloc: Global) -> Result<Value, Memory>
    ensures { IfOk result (λ value. view value
        ≡ bundles.list (bundles.first_group ∷ bundles.second_group ∷ [])) }
{
    let first = first_group(alloc)?;
    let second = second_group(alloc)?;
    pair(alloc, first, second)
}

fn task(alloc: Global, name: &str, other: &str) -> Result<Value, Memory>
    ensures { IfOk result (λ value. view value ≡ bundles.task name.now (string other.now ∷ [])) }
{
    Ok(json!(in alloc; {"name": name, "template": "c", "dependencies": [other]})?)
}

fn last_task(alloc: Global, name: &str, other: &str, another: &str) -> Result<Value, Memory>
    ensures { IfOk result (λ value. view value
        ≡ bundles.task name.now (string other.now ∷ string another.now ∷ [])) }
{
    Ok(json!(in alloc; {"name": name, "template": "c", "dependencies": [other, another]})?)
}

fn tasks(alloc: Global) -> Result<Value, Memory>
    ensures { IfOk result (λ value. view value ≡ bundles.list bundles.tasks) }
{
    let a = step(alloc, "A")?;
    let b = task(alloc, "B", "A")?;
    let c = task(alloc, "C", "A")?;
    let d = last_task(alloc, "D", "B", "C")?;
    Ok(Value::Array(vec![in alloc; a, b, c, d]?))
}

fn dag(alloc: Global) -> Result<Value, Memory>
    ensures { IfOk result (λ value. view value ≡ bundles.dag) }
{
    let tasks = tasks(alloc)?;
    Ok(json!(in alloc; {"failFast": false, "tasks": tasks})?)
}

fn sequence(alloc: Global, count: u64) -> Result<Value, Memory>
    ensures { IfOk result (λ value. view value ≡ bundles.sequence count) }
{
    let count = format!(in alloc; "{count}")?;
    Ok(json!(in alloc; {"count": count})?)
}

fn looped(alloc: Global, count: u64) -> Result<Value, Memory>
    ensures { IfOk result (λ value. view value ≡ bundles.looped count) }
{
    let sequence = sequence(alloc, count)?;
    Ok(json!(in alloc; {"name": "each", "template": "c", "withSequence": sequence})?)
}

fn pod_main(alloc: Global) -> Result<Value, Memory>
    ensures { IfOk result (λ value. view value ≡ bundles.main shape.Pod) }
{
    let container = container(alloc)?;
    Ok(json!(in alloc; {"name": "main", "container": container})?)
}

fn steps_main(alloc: Global) -> Result<Value, Memory>
    ensures { IfOk result (λ value. view value ≡ bundles.main shape.Steps) }
{
    let groups = groups(alloc)?;
    Ok(json!(in alloc; {"name": "main", "steps": groups})?)
}

fn dag_main(alloc: Global) -> Result<Value, Memory>
    ensures { IfOk result (λ value. view value ≡ bundles.main shape.Dag) }
{
    let dag = dag(alloc)?;
    Ok(json!(in alloc; {"name": "main", "dag": dag})?)
}

fn loop_main(alloc: Global, count: u64) -> Result<Value, Memory>
    ensures { IfOk result (λ value. view value ≡ bundles.main (shape.Loop count)) }
{
    let looped = looped(alloc, count)?;
    Ok(json!(in alloc; {"name": "main", "steps": [[looped]]})?)
}

/// The entrypoint.
pub(crate) fn main(alloc: Global, shape: Shape) -> Result<Value, Memory>
    ensures { IfOk result (λ value. view value ≡ bundles.main shape) }
{
    match shape {
        Shape::Pod => pod_main(alloc),
        Shape::Steps => steps_main(alloc),
        Shape::Dag => dag_main(alloc),
        Shape::Loop(count) => loop_main(alloc, count),
    }
}
