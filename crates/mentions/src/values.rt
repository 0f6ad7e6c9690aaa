//! JSON values whose texts ask for a tag.

ghost use Rattle.std.specs.Prelude.{◌≡◌, IfOk};
ghost use Rattle.serde_json.specs.View.{view, items_view, members_view};
ghost use Rattle.tag_text.specs.Parts.{parts_of};
ghost use Rattle.mentions.specs.Mentions as meant;

use crate::texts::text_asks;
use base_types::Memory;
use serde_json::{Map, Value};
use std::alloc::Global;
use tag_text::{TagRefused, parse_tags};

// Whether a text of a JSON value asks for it. One that is no text with tags has none.
fn string_asks(alloc: Global, prefix: &str, text: &str) -> Result<bool, Memory>
    ensures { IfOk result (λ asks. asks ≡ meant.text_asks prefix.now (parts_of text.now)) }
{
    match parse_tags(alloc, text) {
        Ok(text) => Ok(text_asks(prefix, &text)),
        Err(TagRefused::Memory) => Err(Memory),
        Err(_) => Ok(false),
    }
}

// Whether a text in a JSON value asks for it, in lists and maps too.
#[cycle(asks)]
pub(crate) fn value_asks(alloc: Global, prefix: &str, value: &Value) -> Result<bool, Memory>
    ensures { IfOk result (λ asks. asks ≡ meant.value_asks prefix.now (view value.now)) }
{
    match value {
        Value::String(text) => string_asks(alloc, prefix, text.as_str()),
        Value::Array(values) => values_ask(alloc, prefix, values),
        Value::Object(members) => members_ask(alloc, prefix, members),
        _ => Ok(false),
    }
}

#[cycle(asks)]
fn values_ask(alloc: Global, prefix: &str, values: &Vec<Value>) -> Result<bool, Memory>
    ensures { IfOk result (λ asks.
        asks ≡ meant.values_ask prefix.now (items_view values.now.items)) }
{
    for value in values {
        if value_asks(alloc, prefix, value)? {
            return Ok(true);
        }
    }
    Ok(false)
}

#[cycle(asks)]
fn members_ask(alloc: Global, prefix: &str, members: &Map<String, Value>) -> Result<bool, Memory>
    ensures { IfOk result (λ asks.
        asks ≡ meant.members_ask prefix.now (members_view members.now.entries)) }
{
    for (_, value) in members.iter() {
        if value_asks(alloc, prefix, value)? {
            return Ok(true);
        }
    }
    Ok(false)
}
