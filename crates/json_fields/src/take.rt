//! Fields by name and kind.

ghost use Rattle.std.specs.Prelude.{◌≡◌, IfOk, option_map};
ghost use Rattle.serde_json.specs.View.{view};
ghost use Rattle.json_fields.specs.Paths.{field_of};
ghost use Rattle.json_fields.specs.Kinds as kinds;
ghost use Rattle.json_fields.specs.Fields.{Gives, field, refused, says_nothing};

use crate::{FieldPath, FieldRefused, FieldText};
use base_types::Memory;
use serde_json::Value;
use std::alloc::Global;

/// A value as a text: a text, or a whole number or a truth value as text. None where it is of another kind.
pub fn any_text(alloc: Global, value: &Value) -> Result<Option<FieldText>, Memory>
    ensures { IfOk result (λ text. text ≡ kinds.any_text (view value.now)) }
{
    match value {
        Value::String(text) => Ok(Some(FieldText::from_text(alloc, text.as_str())?)),
        Value::Bool(true) => Ok(Some(FieldText::from_text(alloc, "true")?)),
        Value::Bool(false) => Ok(Some(FieldText::from_text(alloc, "false")?)),
        Value::Number(number) => {
            if let Some(n) = number.as_u64() {
                Ok(Some(FieldText::from_string(format!(in alloc; "{n}")?)?))
            } else if let Some(n) = number.as_i64() {
                Ok(Some(FieldText::from_string(format!(in alloc; "{n}")?)?))
            } else {
                Ok(None)
            }
        }
        _ => Ok(None),
    }
}

/// A whole number of 64 bits with a sign. A field that is null counts as absent, here and below, and `at` is the path of
/// the object.
pub fn take_whole(object: &Value, name: &str, at: &FieldPath) -> Result<Option<i64>, FieldRefused>
    ensures { Gives (λ taken. taken) result (field kinds.whole name.now at.now (view object.now)) }
{
    match object.get(name) {
        None | Some(Value::Null) => Ok(None),
        Some(value) => match value.as_i64() {
            Some(n) => Ok(Some(n)),
            None => Err(wrong_kind(name, at)?),
        },
    }
}

/// A truth value.
pub fn take_flag(object: &Value, name: &str, at: &FieldPath) -> Result<Option<bool>, FieldRefused>
    ensures { Gives (λ taken. taken) result (field kinds.flag name.now at.now (view object.now)) }
{
    match object.get(name) {
        None | Some(Value::Null) => Ok(None),
        Some(Value::Bool(b)) => Ok(Some(*b)),
        Some(_) => Err(wrong_kind(name, at)?),
    }
}

/// An object.
pub fn take_object<'a>(
    object: &'a Value,
    name: &str,
    at: &FieldPath,
) -> Result<Option<&'a Value>, FieldRefused>
    ensures { Gives (option_map (λ value. view value.now)) result
        (field kinds.object_ name.now at.now (view object.entry.now)) }
{
    match object.get(name) {
        None | Some(Value::Null) => Ok(None),
        Some(value) => {
            if value.is_object() {
                Ok(Some(value))
            } else {
                Err(wrong_kind(name, at)?)
            }
        }
    }
}

/// Refuses a field that is neither absent nor null nor an empty list.
pub fn refuse(object: &Value, name: &str, at: &FieldPath) -> Result<(), FieldRefused>
    ensures { Gives (λ taken. taken) result (refused name.now at.now (view object.now)) }
{
    match object.get(name) {
        None => Ok(()),
        Some(value) => {
            if says_nothing(value) {
                Ok(())
            } else {
                Err(FieldRefused::Unsupported {
                    path: at.field(name)?,
                })
            }
        }
    }
}

/// Whether a value is null or an empty list.
pub fn says_nothing(value: &Value) -> bool
    ensures { result ≡ says_nothing (view value.now) }
{
    match value {
        Value::Null => true,
        Value::Array(items) => match items.as_slice() {
            [] => true,
            [_, ..] => false,
        },
        _ => false,
    }
}

fn wrong_kind(name: &str, at: &FieldPath) -> Result<FieldRefused, Memory>
    ensures { IfOk result (λ refused. refused ≡ FieldRefused.WrongKind (field_of at.now name.now)) }
{
    Ok(FieldRefused::WrongKind {
        path: at.field(name)?,
    })
}
