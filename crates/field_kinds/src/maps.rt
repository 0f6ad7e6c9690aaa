//! Maps: objects whose keys are the document's.

ghost use Rattle.serde_json.specs.View.{view, members_view};
ghost use Rattle.json_fields.specs.Paths.{field_of};
ghost use Rattle.std.specs.Prelude.{Some};
ghost use Rattle.field_kinds.specs.Refusing.{Reads};
ghost use Rattle.field_kinds.specs.Fields.{present};
ghost use Rattle.field_kinds.specs.Maps.{map_of, entries};

use crate::refused::refused_at;
use crate::rules::WRONG_KIND;
use crate::{Keyed, KindRefused};
use base_types::List;
use json_fields::FieldPath;
use serde_json::{Map, Value};
use std::alloc::Global;

/// The members of a map, in the order of their keys. A member that is null is absent, with its key.
pub fn map_of<T: Keyed>(
    alloc: Global,
    value: &Value,
    at: &FieldPath,
    around: &T::Around,
) -> Result<List<T::Made>, KindRefused>
    ensures { Reads result (map_of (T.entry around.now) at.now (view value.now)) }
{
    match value {
        Value::Object(map) => entries::<T>(alloc, map, at, around),
        _ => Err(refused_at(WRONG_KIND, at)?),
    }
}

fn entries<T: Keyed>(
    alloc: Global,
    map: &Map<String, Value>,
    at: &FieldPath,
    around: &T::Around,
) -> Result<List<T::Made>, KindRefused>
    ensures { Reads result (entries (T.entry around.now) at.now (members_view map.now.entries)) }
{
    let mut out = List::new(alloc);
    for (key, value) in map.iter() {
        if let Some(entry) = present_entry::<T>(alloc, key.as_str(), value, at, around)? {
            out.push(entry)?;
        }
    }
    Ok(out)
}

fn present_entry<T: Keyed>(
    alloc: Global,
    key: &str,
    value: &Value,
    at: &FieldPath,
    around: &T::Around,
) -> Result<Option<T::Made>, KindRefused>
    ensures { Reads result
        (present (T.entry around.now key.now) (field_of at.now key.now) (Some (view value.now))) }
{
    match value {
        Value::Null => Ok(None),
        _ => Ok(Some(T::read_entry(alloc, key, value, &at.field(key)?, around)?)),
    }
}
