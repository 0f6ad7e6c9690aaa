//! The places of loops.

ghost use Rattle.std.specs.Prelude.{◌≡◌, ◌++◌, OnOk};
ghost use Rattle.serde_json.specs.View.{view, items_view, members_view};
ghost use Rattle.tag_text.specs.Parts.{parts_of};
ghost use Rattle.wf_places.specs.Tags as tags;
ghost use Rattle.wf_places.specs.Calls as calls;
ghost use Rattle.wf_places.specs.Inside.Views.{around_of};

use crate::Place;
use crate::around::{Inside, Spot};
use crate::tags::{add_text, add_text_field, add_text_option};
use base_types::Memory;
use field_kinds::FieldPath;
use serde_json::{Map, Value};
use tag_text::{TagRefused, TagText, parse_tags};
use wf_manifest::Loop;

// Adds the places of a text of a JSON value. One that is no text with tags has none.
fn add_string(
    out: &mut Vec<Place>,
    inside: &Inside<'_, '_>,
    spot: Spot<'_>,
    at: &FieldPath,
    text: &str,
) -> Result<(), Memory>
    ensures { OnOk result (out.new.items
        ≡ out.old.items ++ tags.text_places (around_of inside.now spot.entry) at.now (parts_of text.now)) }
{
    match parse_tags(inside.outside.alloc, text) {
        Ok(text) => add_text(out, inside, spot, at, &text),
        Err(TagRefused::Memory) => Err(Memory),
        Err(_) => Ok(()),
    }
}

#[cycle(data)]
fn add_value(
    out: &mut Vec<Place>,
    inside: &Inside<'_, '_>,
    spot: Spot<'_>,
    at: &FieldPath,
    value: &Value,
) -> Result<(), Memory>
    ensures { OnOk result (out.new.items
        ≡ out.old.items ++ calls.data_places (around_of inside.now spot.entry) at.now (view value.now)) }
{
    match value {
        Value::String(text) => add_string(out, inside, spot, at, text.as_str()),
        Value::Array(items) => add_items(out, inside, spot, at, items),
        Value::Object(members) => add_members(out, inside, spot, at, members),
        Value::Null | Value::Bool(_) | Value::Number(_) => Ok(()),
    }
}

#[cycle(data)]
fn add_items(
    out: &mut Vec<Place>,
    inside: &Inside<'_, '_>,
    spot: Spot<'_>,
    at: &FieldPath,
    items: &Vec<Value>,
) -> Result<(), Memory>
    ensures { OnOk result (out.new.items
        ≡ out.old.items ++ calls.items_places (around_of inside.now spot.entry) at.now 0 (items_view items.now.items)) }
{
    let mut i: usize = 0;
    for item in items {
        add_value(out, inside, spot, &at.member(i)?, item)?;
        i += 1;
    }
    Ok(())
}

#[cycle(data)]
fn add_members(
    out: &mut Vec<Place>,
    inside: &Inside<'_, '_>,
    spot: Spot<'_>,
    at: &FieldPath,
    members: &Map<String, Value>,
) -> Result<(), Memory>
    ensures { OnOk result (out.new.items
        ≡ out.old.items ++ calls.members_places (around_of inside.now spot.entry) at.now (members_view members.now.entries)) }
{
    for (key, member) in members.iter() {
        add_value(out, inside, spot, &at.field(key.as_str())?, member)?;
    }
    Ok(())
}

fn add_sequence(
    out: &mut Vec<Place>,
    inside: &Inside<'_, '_>,
    spot: Spot<'_>,
    at: &FieldPath,
    count: &Option<TagText>,
    start: &Option<TagText>,
    end: &Option<TagText>,
    format: &Option<TagText>,
) -> Result<(), Memory>
    ensures { OnOk result (out.new.items ≡ out.old.items
        ++ calls.sequence_places (around_of inside.now spot.entry) at.now count.now start.now end.now format.now) }
{
    add_text_option(out, inside, spot, at, "withSequence.count", count)?;
    add_text_option(out, inside, spot, at, "withSequence.start", start)?;
    add_text_option(out, inside, spot, at, "withSequence.end", end)?;
    add_text_option(out, inside, spot, at, "withSequence.format", format)
}

/// Adds the places of the loop of a step or task.
pub(crate) fn add_loop(
    out: &mut Vec<Place>,
    inside: &Inside<'_, '_>,
    spot: Spot<'_>,
    at: &FieldPath,
    each: &Option<Loop>,
) -> Result<(), Memory>
    ensures { OnOk result (out.new.items
        ≡ out.old.items ++ calls.loop_places (around_of inside.now spot.entry) at.now each.now) }
{
    match each {
        None => Ok(()),
        Some(Loop::Items(items)) => {
            let path = at.field("withItems")?;
            add_value(out, inside, spot, &path, items.value())
        }
        Some(Loop::Param(text)) => add_text_field(out, inside, spot, at, "withParam", text),
        Some(
            Loop::Sequence {
                count,
                start,
                end,
                format,
            },
        ) => add_sequence(out, inside, spot, at, count, start, end, format),
    }
}
