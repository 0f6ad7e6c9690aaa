//! Fields that are refused, and fields that may not stand beside others.

ghost use Rattle.std.specs.Prelude.{◌≡◌, bytes_eq, map, option_map};
ghost use Rattle.serde_json.specs.View.{view, members_view};
ghost use Rattle.json_fields.specs.Paths.{field_of};
ghost use Rattle.field_kinds.specs.Refusing.{Reads};
ghost use Rattle.field_kinds.specs.Fields as fields;

use crate::KindRefused;
use crate::refused::{refused_at, refused_field};
use crate::rules::{MISSING, UNSUPPORTED};
use json_fields::{FieldPath, refuse, says_nothing};
use serde_json::{Map, Value};

/// Refuses these fields, the first of them first.
pub fn refuse_all(object: &Value, names: &[&str], at: &FieldPath) -> Result<(), KindRefused>
    ensures { Reads result
        (fields.refused_all (map (λ name. name.now) names.now) at.now (view object.now)) }
{
    for i in 0..names.len() {
        refuse(object, names[i], at)?;
    }
    Ok(())
}

/// Refuses a field where it is `asked`.
pub fn refuse_if(asked: bool, object: &Value, name: &str, at: &FieldPath) -> Result<(), KindRefused>
    ensures { Reads result (fields.refused_if asked name.now at.now (view object.now)) }
{
    if asked {
        refuse(object, name, at)?;
    }
    Ok(())
}

/// Refuses a field that is not false.
pub fn refuse_unless_false(object: &Value, name: &str, at: &FieldPath) -> Result<(), KindRefused>
    ensures { Reads result (fields.refused_unless_false name.now at.now (view object.now)) }
{
    match object.get(name) {
        None | Some(Value::Bool(false)) => Ok(()),
        Some(value) => {
            if says_nothing(value) {
                Ok(())
            } else {
                Err(refused_field(UNSUPPORTED, name, at)?)
            }
        }
    }
}

/// Refuses every member of an object but one, in the order of the keys.
pub fn refuse_but(object: &Value, but: &str, at: &FieldPath) -> Result<(), KindRefused>
    ensures { Reads result (fields.refused_but but.now at.now (view object.now)) }
{
    match object {
        Value::Object(map) => refuse_members(map, but, at),
        _ => Ok(()),
    }
}

fn refuse_members(map: &Map<String, Value>, but: &str, at: &FieldPath) -> Result<(), KindRefused>
    ensures { Reads result (fields.refused_members but.now at.now (members_view map.now.entries)) }
{
    for (key, value) in map.iter() {
        refuse_member(key.as_str(), value, but, at)?;
    }
    Ok(())
}

fn refuse_member(key: &str, value: &Value, but: &str, at: &FieldPath) -> Result<(), KindRefused>
    ensures { Reads result
        (fields.unsupported_in (bytes_eq key.now but.now) (field_of at.now key.now) (view value.now)) }
{
    if key == but || says_nothing(value) {
        Ok(())
    } else {
        Err(refused_field(UNSUPPORTED, key, at)?)
    }
}

fn is_present(found: Option<&Value>) -> bool
    ensures { result ≡ fields.is_present (option_map (λ value. view value.now) found.entry) }
{
    !matches!(found, None | Some(Value::Null))
}

/// Whether a field is neither absent nor null.
pub fn has(object: &Value, name: &str) -> bool
    ensures { result ≡ fields.has name.now (view object.now) }
{
    is_present(object.get(name))
}

/// Refuses a field that stands beside another.
pub fn no_second(there: bool, object: &Value, name: &str, at: &FieldPath) -> Result<(), KindRefused>
    ensures { Reads result (fields.no_second there name.now at.now (view object.now)) }
{
    if there && has(object, name) {
        Err(refused_field(UNSUPPORTED, name, at)?)
    } else {
        Ok(())
    }
}

/// Tells that what should stand at a path is missing, unless it is `there`.
pub fn missing_unless(there: bool, at: &FieldPath) -> Result<(), KindRefused>
    ensures { Reads result (fields.missing_unless there at.now) }
{
    if there {
        Ok(())
    } else {
        Err(refused_at(MISSING, at)?)
    }
}

/// Tells that what stands at a path is not supported, if it is `there`.
pub fn unsupported_if(there: bool, at: &FieldPath) -> Result<(), KindRefused>
    ensures { Reads result (fields.unsupported_if there at.now) }
{
    if there {
        Err(refused_at(UNSUPPORTED, at)?)
    } else {
        Ok(())
    }
}
