//! The items of lists: of `withItems` and of what `withParam` says.

ghost use Rattle.std.specs.Prelude.{◌≡◌, map, IfOk};
ghost use Rattle.serde_json.specs.View.{view, items_view, members_view};
ghost use Rattle.serde_json.specs.Read.{read};
ghost use Rattle.fanout.specs.Faults.{Tells};
ghost use Rattle.fanout.specs.Items.{is_whole, are_whole, members_are_whole, items_of_data, items_of_read};

use crate::{FanRefused, Items};
use base_types::Memory;
use base_types::limits::MOST_ITEMS;
use serde_json::{Map, Value};
use std::alloc::Global;
use wf_manifest::Json;

// The items that a text says as a JSON list.
pub(crate) fn read_items(alloc: Global, text: &str) -> Result<Items, FanRefused>
    ensures { Tells (λ items. items) result (items_of_read (read text.now)) }
{
    match Value::from_str(alloc, text) {
        Ok(value) => items_of(alloc, value),
        Err(error) if error.is_memory() => Err(FanRefused::Memory),
        Err(_) => Err(FanRefused::NotList),
    }
}

// The items of a JSON list.
pub(crate) fn items_of(alloc: Global, value: Value) -> Result<Items, FanRefused>
    ensures { Tells (λ items. items) result (items_of_data (view value)) }
{
    let Value::Array(values) = value else {
        return Err(FanRefused::NotList);
    };
    if !has_whole_items(&values) {
        return Err(FanRefused::BadItem);
    }
    if values.len() > MOST_ITEMS {
        return Err(FanRefused::TooManyItems);
    }
    Ok(wrapped(alloc, values)?)
}

fn wrapped(alloc: Global, values: Vec<Value>) -> Result<Items, Memory>
    ensures { IfOk result (λ items. items ≡ map view values.items) }
{
    let mut items = Items::with_capacity(alloc, values.len())?;
    for value in values {
        items.push(Json::new(value))?;
    }
    Ok(items)
}

// Every number in a value is a whole number of 64 bits.
#[cycle(whole)]
fn has_whole_numbers(value: &Value) -> bool
    ensures { result ≡ is_whole (view value.now) }
{
    match value {
        Value::Number(number) => !number.is_f64(),
        Value::Array(values) => has_whole_items(values),
        Value::Object(members) => has_whole_members(members),
        _ => true,
    }
}

#[cycle(whole)]
fn has_whole_items(values: &Vec<Value>) -> bool
    ensures { result ≡ are_whole (items_view values.now.items) }
{
    for value in values {
        if !has_whole_numbers(value) {
            return false;
        }
    }
    true
}

#[cycle(whole)]
fn has_whole_members(members: &Map<String, Value>) -> bool
    ensures { result ≡ members_are_whole (members_view members.now.entries) }
{
    for (_, value) in members.iter() {
        if !has_whole_numbers(value) {
            return false;
        }
    }
    true
}
