//! The outputs of looped calls.

ghost use Rattle.std.specs.Prelude.{◌≡◌, List, map, false, IfOk};
ghost use Rattle.serde_json.specs.Data.{string, array};
ghost use Rattle.serde_json.specs.View.{view, items_view};
ghost use Rattle.serde_json.specs.Written.{compact_text, items_have_float};
ghost use Rattle.meaning.specs.Lines.{Made};
ghost use Rattle.meaning.specs.Outputs.{param};
ghost use Rattle.meaning.specs.Calls as calls;
ghost use Rattle.call_nodes.specs.Inside.Loops as loops;

use crate::endings::param_of;
use base_types::{Memory, Text, TryCopy};
use serde_json::Value;
use std::alloc::Global;
use tree_types::{Outputs, Param, Params};
use wf_manifest::OutputDecls;

/// The outputs of a looped call of a template that declares these, given the outputs of its items in their order:
/// each is a JSON list of texts, with null for an item that has none.
pub fn loop_outputs(
    alloc: Global,
    declared: &OutputDecls,
    items: &[&Outputs],
) -> Result<Outputs, Memory>
    ensures { (ms : List Made) → map (λ m. m.own.node.outputs) ms ≡ map (λ o. o.now) items.now →
        IfOk result (λ outputs. outputs ≡ calls.loop_outputs declared.now ms) }
{
    let mut params = Params::with_capacity(alloc, declared.len())?;
    for i in 0..declared.len() {
        let name = &declared.get(i).name;
        params.push(Param {
            name: name.copy()?,
            value: output_text(alloc, name, items)?,
        })?;
    }
    Ok(Outputs {
        result: Some(results_text(alloc, items)?),
        params,
    })
}

fn results_text(alloc: Global, items: &[&Outputs]) -> Result<Text, Memory>
    ensures { IfOk result (λ text. text ≡ loops.results_text (map (λ o. o.now) items.now)) }
{
    let mut values = Vec::with_capacity(alloc, items.len())?;
    for i in 0..items.len() {
        values.push(result_value(items[i])?)?;
    }
    json_text(alloc, values)
}

fn output_text(alloc: Global, name: &Text, items: &[&Outputs]) -> Result<Text, Memory>
    ensures { IfOk result (λ text. text ≡ loops.output_text name.now (map (λ o. o.now) items.now)) }
{
    let mut values = Vec::with_capacity(alloc, items.len())?;
    for i in 0..items.len() {
        values.push(output_value(items[i], name)?)?;
    }
    json_text(alloc, values)
}

fn result_value(outputs: &Outputs) -> Result<Value, Memory>
    ensures { IfOk result (λ value. view value ≡ loops.text_or_null outputs.now.result) }
{
    match &outputs.result {
        None => Ok(Value::Null),
        Some(text) => text_value(text),
    }
}

fn output_value(outputs: &Outputs, name: &Text) -> Result<Value, Memory>
    ensures { IfOk result (λ value. view value ≡ loops.text_or_null (param name.now outputs.now.params)) }
{
    match param_of(&outputs.params, name) {
        None => Ok(Value::Null),
        Some(text) => text_value(text),
    }
}

fn text_value(text: &Text) -> Result<Value, Memory>
    ensures { IfOk result (λ value. view value ≡ string text.now) }
{
    Ok(Value::String(text.copy()?.into_string()?))
}

fn json_text(alloc: Global, values: Vec<Value>) -> Result<Text, Memory>
    requires { items_have_float (items_view values.items) ≡ false }
    ensures { IfOk result (λ text. text ≡ compact_text (array (items_view values.items))) }
{
    let list = Value::Array(values);
    Ok(Text::from_string(list.to_string(alloc)?)?)
}
