//! The items of a loop, each text in which is a text with tags.

ghost use Rattle.std.specs.Prelude.{◌≡◌};
ghost use Rattle.serde_json.specs.View.{view, items_view, members_view};
ghost use Rattle.field_kinds.specs.Refusing.{Reads};
ghost use Rattle.call_reader.specs.Tags as tags;

use crate::Tagged;
use field_kinds::rules::{BAD_TEXT, WRONG_KIND};
use field_kinds::{FieldPath, Grammar, KindRefused, Readable, refused_at};
use serde_json::{Map, Value};
use std::alloc::Global;
use wf_manifest::Json;

// The items of a loop: a list as it stands.
pub(crate) struct LoopItems;

impl Readable for LoopItems {
    type Made = Json;

    type Around = ();

    ghost kind = { λ _. tags.loop_items };

    fn read(alloc: Global, value: &Value, at: &FieldPath, _: &()) -> Result<Json, KindRefused> {
        match value {
            Value::Array(items) => {
                good_items(alloc, items, at)?;
                Ok(Json::new(value.clone()?))
            }
            _ => Err(refused_at(WRONG_KIND, at)?),
        }
    }
}

// Refuses a text with a faulty tag.
fn good_text(alloc: Global, text: &str, at: &FieldPath) -> Result<(), KindRefused>
    ensures { Reads result (tags.good_tags at.now (tags.tags text.now)) }
{
    match Tagged::read(alloc, text)? {
        Some(_) => Ok(()),
        None => Err(refused_at(BAD_TEXT, at)?),
    }
}

// Refuses the first text with a faulty tag.
#[cycle(texts)]
fn good_texts(alloc: Global, value: &Value, at: &FieldPath) -> Result<(), KindRefused>
    ensures { Reads result (tags.good_texts at.now (view value.now)) }
{
    match value {
        Value::String(text) => good_text(alloc, text.as_str(), at),
        Value::Array(items) => good_items(alloc, items, at),
        Value::Object(members) => good_members(alloc, members, at),
        Value::Null | Value::Bool(_) | Value::Number(_) => Ok(()),
    }
}

#[cycle(texts)]
fn good_items(alloc: Global, items: &Vec<Value>, at: &FieldPath) -> Result<(), KindRefused>
    ensures { Reads result (tags.good_items at.now 0 (items_view items.now.items)) }
{
    let mut i: usize = 0;
    for item in items {
        good_texts(alloc, item, &at.member(i)?)?;
        i += 1;
    }
    Ok(())
}

#[cycle(texts)]
fn good_members(
    alloc: Global,
    members: &Map<String, Value>,
    at: &FieldPath,
) -> Result<(), KindRefused>
    ensures { Reads result (tags.good_members at.now (members_view members.now.entries)) }
{
    for (key, member) in members.iter() {
        good_texts(alloc, member, &at.field(key.as_str())?)?;
    }
    Ok(())
}
