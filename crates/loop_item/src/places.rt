//! The item of a loop at a position.

ghost use Rattle.std.specs.Prelude.{◌≡◌, IfOk, IfSome, IsTrue, List as Seq, Option, Some, None, slice_get};
ghost use Rattle.serde_json.specs.Data.{array};
ghost use Rattle.serde_json.specs.View.{items_view};
ghost use Rattle.tag_text.specs.declared.part.Part.{Part};
ghost use Rattle.wf_manifest.specs.declared.calls.Loop.TheVariants as each;
ghost use Rattle.fanout.specs.Items.{items as items_meant, is_whole};
ghost use Rattle.loop_item.specs.ItemAt.{GivesAt};

use crate::one::{loop_of_number, loop_of_value};
use base_types::Memory;
use fanout::{FanRefused, Items, items};
use scopes::Scope;
use serde_json::Value;
use std::alloc::Global;
use tag_text::TagText;
use wf_manifest::{Json, Loop};

/// The item of a loop at a position from 0: where the loop has items and one stands there, it is that one. It can be given
/// to `call_texts::item_scope`. That of a list, and that of a sequence of a count from 0 on, is made without the others.
pub fn loop_item(
    alloc: Global,
    each: &Loop,
    scope: &Scope,
    place: usize,
) -> Result<Option<Json>, Memory>
    ensures item { GivesAt place result (items_meant scope.now each.now) }
    ensures whole { IfOk result (λ found. IfSome found (λ item. IsTrue (is_whole item))) }
{
    match each {
        Loop::Items(list) => match list.value() {
            Value::Array(values) => item_of_values(alloc, values, scope, place),
            _ => item_of_all(alloc, each, scope, place),
        },
        Loop::Sequence {
            count: Some(_),
            start: None,
            format,
            ..
        } => item_of_numbers(alloc, format, scope, place),
        _ => item_of_all(alloc, each, scope, place),
    }
}

// The item that the value at a position says. It says alone what it says among the others.
fn item_of_values(
    alloc: Global,
    values: &Vec<Value>,
    scope: &Scope,
    place: usize,
) -> Result<Option<Json>, Memory>
    ensures item { GivesAt place result
        (items_meant scope.now (each.Items (array (items_view values.now.items)))) }
    ensures whole { IfOk result (λ found. IfSome found (λ item. IsTrue (is_whole item))) }
{
    if place >= values.len() {
        return Ok(None);
    }
    let one = loop_of_value(alloc, &values[place])?;
    item_of_all(alloc, &one, scope, 0)
}

// The item at a position of the numbers from 0 on: the number of the position in this format.
fn item_of_numbers(
    alloc: Global,
    format: &Option<TagText>,
    scope: &Scope,
    place: usize,
) -> Result<Option<Json>, Memory>
    ensures item { (count : Seq Part) (end : Option (Seq Part)) →
        GivesAt place result (items_meant scope.now (each.Sequence (Some count) None end format.now)) }
    ensures whole { IfOk result (λ found. IfSome found (λ item. IsTrue (is_whole item))) }
{
    let one = loop_of_number(alloc, place, format)?;
    item_of_all(alloc, &one, scope, 0)
}

// The item at a position, with all others made beside it.
fn item_of_all(
    alloc: Global,
    each: &Loop,
    scope: &Scope,
    place: usize,
) -> Result<Option<Json>, Memory>
    ensures item { GivesAt place result (items_meant scope.now each.now) }
    ensures whole { IfOk result (λ found. IfSome found (λ item. IsTrue (is_whole item))) }
{
    match items(alloc, each, scope) {
        Ok(items) => Ok(item_at(items, place)),
        Err(FanRefused::Memory) => Err(Memory),
        Err(_) => Ok(None),
    }
}

// The item at a place of a list.
fn item_at(items: Items, place: usize) -> Option<Json>
    ensures { result ≡ slice_get items place }
{
    if place >= items.len() {
        return None;
    }
    let mut items = items.into_vec();
    Some(items.swap_remove(place))
}
