//! The first pass over a document: its items.

ghost use Rattle.std.specs.Prelude.{◌≡◌, ◌≤◌, [], length, IfOk, codes};
ghost use Rattle.serde_json.specs.View.{view, items_view};
ghost use Rattle.base_types.specs.Limits.{most_list_items};
ghost use Rattle.field_kinds.specs.Refusing.{Shows};
ghost use Rattle.field_kinds.specs.Kinds.{needs_list};
ghost use Rattle.field_kinds.specs.Fields.{required};
ghost use Rattle.item_reader.specs.Items.{item as item_at};
ghost use Rattle.bundle_rules.specs.Findings.{Finds, of_item};
ghost use Rattle.wf_bundle.specs.Documents as documents;

use base_types::List;
use base_types::limits::MOST_LIST_ITEMS;
use bundle_rules::{BundleRefused, of_item};
use field_kinds::rules::MISSING;
use field_kinds::{FieldPath, KindRefused, needs_list, needs_object, refused_at};
use item_reader::{Item, read_item, says};
use serde_json::Value;
use std::alloc::Global;
use std::slice;

// The field `items` of a list.
fn listed<'a>(list: &'a Value, at: &FieldPath) -> Result<&'a [Value], KindRefused>
    ensures list { Shows (λ values. items_view values.now) result
        (required (needs_list most_list_items) (codes "items") at.now (view list.entry.now)) }
    ensures few { IfOk result (λ values. length values.now ≤ most_list_items) }
{
    let path = at.field("items")?;
    match list.get("items") {
        None | Some(Value::Null) => Err(refused_at(MISSING, &path)?),
        Some(value) => needs_list(value, MOST_LIST_ITEMS, &path),
    }
}

// The values that stand for items.
fn values<'a>(value: &'a Value, at: &FieldPath) -> Result<&'a [Value], KindRefused>
    ensures values { Shows (λ values. items_view values.now) result
        (documents.values at.now (view value.entry.now)) }
    ensures few { IfOk result (λ values. length values.now ≤ most_list_items) }
{
    needs_object(value, at)?;
    if says(value, "kind", "List") {
        listed(value, at)
    } else {
        Ok(slice::from_ref(value))
    }
}

fn item_at(alloc: Global, position: u32, value: &Value) -> Result<Item, BundleRefused>
    ensures { Finds result (of_item position (item_at position [] (view value.now))) }
{
    match read_item(alloc, position, value, &FieldPath::root(alloc)) {
        Ok(item) => Ok(item),
        Err(refused) => Err(of_item(position, refused)),
    }
}

fn items_of_values(alloc: Global, values: &[Value]) -> Result<List<Item>, BundleRefused>
    requires few { length values.now ≤ most_list_items }
    ensures items { Finds result (documents.items_from 0 (items_view values.now)) }
    ensures few { IfOk result (λ items. length items ≤ most_list_items) }
{
    let mut items = List::with_capacity(alloc, values.len())?;
    for i in 0..values.len() {
        items.push(item_at(alloc, i as u32, &values[i])?)?;
    }
    Ok(items)
}

/// The items of a document.
#[tactic(auto, unfolding(crate::specs::Documents::items_of))]
pub(crate) fn items_of(alloc: Global, value: &Value) -> Result<List<Item>, BundleRefused>
    ensures items { Finds result (documents.items_of (view value.now)) }
    ensures few { IfOk result (λ items. length items ≤ most_list_items) }
{
    match values(value, &FieldPath::root(alloc)) {
        Ok(values) => items_of_values(alloc, values),
        Err(refused) => Err(of_item(0, refused)),
    }
}
