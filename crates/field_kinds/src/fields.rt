//! Fields of the object at a path, by the kind of their value.

ghost use Rattle.std.specs.Prelude.{◌≡◌, [], option_map};
ghost use Rattle.serde_json.specs.View.{view};
ghost use Rattle.field_kinds.specs.Refusing.{Reads, Shows};
ghost use Rattle.field_kinds.specs.Kinds.{list_of, all_of, json_object};
ghost use Rattle.field_kinds.specs.Fields.{optional, required, default, default_list};

use crate::rules::MISSING;
use crate::{KindRefused, Readable, all_of, list_of};
use base_types::List;
use json_fields::{FieldPath, take_object};
use serde_json::Value;
use std::alloc::Global;

/// A field that may be absent.
pub fn optional<T: Readable>(
    alloc: Global,
    object: &Value,
    name: &str,
    at: &FieldPath,
    around: &T::Around,
) -> Result<Option<T::Made>, KindRefused>
    ensures { Reads result (optional (T.kind around.now) name.now at.now (view object.now)) }
{
    match object.get(name) {
        None | Some(Value::Null) => Ok(None),
        Some(value) => Ok(Some(T::read(alloc, value, &at.field(name)?, around)?)),
    }
}

/// A field that must be there.
pub fn required<T: Readable>(
    alloc: Global,
    object: &Value,
    name: &str,
    at: &FieldPath,
    around: &T::Around,
) -> Result<T::Made, KindRefused>
    ensures { Reads result (required (T.kind around.now) name.now at.now (view object.now)) }
{
    let path = at.field(name)?;
    match object.get(name) {
        None | Some(Value::Null) => Err(KindRefused::Rule {
            rule: MISSING,
            field: path,
        }),
        Some(value) => T::read(alloc, value, &path, around),
    }
}

/// A list of at most so many members, empty where the field is absent.
pub fn list_or_empty<T: Readable>(
    alloc: Global,
    object: &Value,
    name: &str,
    most: usize,
    at: &FieldPath,
    around: &T::Around,
) -> Result<List<T::Made>, KindRefused>
    ensures { Reads result
        (default_list most (T.kind around.now) name.now at.now (view object.now)) }
{
    match object.get(name) {
        None | Some(Value::Null) => Ok(List::new(alloc)),
        Some(value) => list_of::<T>(alloc, value, most, &at.field(name)?, around),
    }
}

/// A list of at most so many members that must be there.
pub fn required_list<T: Readable>(
    alloc: Global,
    object: &Value,
    name: &str,
    most: usize,
    at: &FieldPath,
    around: &T::Around,
) -> Result<List<T::Made>, KindRefused>
    ensures { Reads result
        (required (list_of most (T.kind around.now)) name.now at.now (view object.now)) }
{
    let path = at.field(name)?;
    match object.get(name) {
        None | Some(Value::Null) => Err(KindRefused::Rule {
            rule: MISSING,
            field: path,
        }),
        Some(value) => list_of::<T>(alloc, value, most, &path, around),
    }
}

/// A list of any length, empty where the field is absent.
pub fn all_or_empty<T: Readable>(
    alloc: Global,
    object: &Value,
    name: &str,
    at: &FieldPath,
    around: &T::Around,
) -> Result<List<T::Made>, KindRefused>
    ensures { Reads result
        (default [] (all_of (T.kind around.now)) name.now at.now (view object.now)) }
{
    match object.get(name) {
        None | Some(Value::Null) => Ok(List::new(alloc)),
        Some(value) => all_of::<T>(alloc, value, &at.field(name)?, around),
    }
}

/// An object as it stands.
pub fn optional_object<'a>(
    object: &'a Value,
    name: &str,
    at: &FieldPath,
) -> Result<Option<&'a Value>, KindRefused>
    ensures { Shows (option_map (λ value. view value.now)) result
        (optional json_object name.now at.now (view object.entry.now)) }
{
    Ok(take_object(object, name, at)?)
}
