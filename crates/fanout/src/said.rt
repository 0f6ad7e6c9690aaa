//! The substitution of texts, on their own and inside JSON values.

ghost use Rattle.serde_json.specs.View.{view, items_view, members_view};
ghost use Rattle.tag_text.specs.Parts.{parts_of};
ghost use Rattle.scopes.specs.Substitution.{said, said_option};
ghost use Rattle.fanout.specs.Faults.{Tells};
ghost use Rattle.fanout.specs.Items.{said_in, said_in_items, said_in_members};

use crate::FanRefused;
use base_types::Text;
use scopes::{Scope, SubstRefused, subst};
use serde_json::{Map, Value};
use std::alloc::Global;
use tag_text::{TagRefused, TagText, parse_tags};

// What a text with tags says.
pub(crate) fn said_text(text: &TagText, scope: &Scope) -> Result<Text, FanRefused>
    ensures { Tells (λ text. text) result (said scope.now text.now) }
{
    match subst(text, scope) {
        Ok(text) => Ok(text),
        Err(SubstRefused::Unresolved { tag }) => Err(FanRefused::Unresolved { tag }),
        Err(SubstRefused::Memory) => Err(FanRefused::Memory),
    }
}

// What a text says that may be absent.
pub(crate) fn said_or_none(
    text: &Option<TagText>,
    scope: &Scope,
) -> Result<Option<Text>, FanRefused>
    ensures { Tells (λ text. text) result (said_option scope.now text.now) }
{
    match text {
        None => Ok(None),
        Some(text) => Ok(Some(said_text(text, scope)?)),
    }
}

// What a text of a JSON value says. One that is no text with tags stays as it is.
fn said_string(alloc: Global, text: &str, scope: &Scope) -> Result<Text, FanRefused>
    ensures { Tells (λ text. text) result (said scope.now (parts_of text.now)) }
{
    match parse_tags(alloc, text) {
        Ok(text) => said_text(&text, scope),
        Err(TagRefused::Memory) => Err(FanRefused::Memory),
        Err(_) => Ok(Text::from_text(alloc, text)?),
    }
}

// A JSON value whose texts are substituted, in lists and maps too; keys are not.
#[cycle(said)]
pub(crate) fn said_value(alloc: Global, value: &Value, scope: &Scope) -> Result<Value, FanRefused>
    ensures { Tells view result (said_in scope.now (view value.now)) }
{
    match value {
        Value::Null => Ok(Value::Null),
        Value::Bool(truth) => Ok(Value::Bool(*truth)),
        Value::Number(number) => Ok(Value::Number(*number)),
        Value::String(text) => Ok(Value::String(said_string(
            alloc,
            text.as_str(),
            scope,
        )?.into_string()?)),
        Value::Array(values) => Ok(Value::Array(said_values(alloc, values, scope)?)),
        Value::Object(members) => Ok(Value::Object(said_members(alloc, members, scope)?)),
    }
}

#[cycle(said)]
fn said_values(alloc: Global, values: &Vec<Value>, scope: &Scope) -> Result<Vec<Value>, FanRefused>
    ensures { Tells (λ said. items_view said.items) result
        (said_in_items scope.now (items_view values.now.items)) }
{
    let mut said = Vec::with_capacity(alloc, values.len())?;
    for value in values {
        match said_value(alloc, value, scope) {
            Ok(value) => said.push(value)?,
            Err(fault) => return Err(fault),
        }
    }
    Ok(said)
}

#[cycle(said)]
fn said_members(
    alloc: Global,
    members: &Map<String, Value>,
    scope: &Scope,
) -> Result<Map<String, Value>, FanRefused>
    ensures { Tells (λ said. members_view said.entries) result
        (said_in_members scope.now (members_view members.now.entries)) }
{
    let mut said = Map::new(alloc);
    for (key, member) in members.iter() {
        let name = key.clone()?;
        match said_value(alloc, member, scope) {
            Ok(value) => drop(said.insert(name, value)?),
            Err(fault) => return Err(fault),
        }
    }
    Ok(said)
}
