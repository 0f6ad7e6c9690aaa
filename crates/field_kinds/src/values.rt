//! Values by kind: objects, and lists with their members.

ghost use Rattle.std.specs.Prelude.{◌≡◌, nat_lt, length, ◌≤◌, ◌<◌, IfOk, IsTrue, ◌↔◌};
ghost use Rattle.serde_json.specs.Events.{items_len};
ghost use Rattle.serde_json.specs.View.{view, items_view};
ghost use Rattle.field_kinds.specs.Refusing.{Reads, Shows};
ghost use Rattle.field_kinds.specs.Reading.{or_wrong};
ghost use Rattle.field_kinds.specs.Kinds.{needs_object, needs_list, members, list_of, all_of};
ghost use Rattle.json_fields.specs.Kinds as is;

use crate::refused::refused_at;
use crate::rules::{TOO_MANY, WRONG_KIND};
use crate::{KindRefused, Readable};
use base_types::List;
use json_fields::FieldPath;
use serde_json::Value;
use std::alloc::Global;

/// Refuses a value that is no object.
pub fn needs_object(value: &Value, at: &FieldPath) -> Result<(), KindRefused>
    ensures { Reads result (needs_object at.now (view value.now)) }
{
    if value.is_object() {
        Ok(())
    } else {
        Err(refused_at(WRONG_KIND, at)?)
    }
}

// The list that a value is, of any length.
fn any_list<'a>(value: &'a Value, at: &FieldPath) -> Result<&'a [Value], KindRefused>
    ensures { Shows (λ list. items_view list.now) result
        (or_wrong at.now (is.list (view value.entry.now))) }
{
    match value {
        Value::Array(items) => Ok(items.as_slice()),
        _ => Err(refused_at(WRONG_KIND, at)?),
    }
}

/// The list that a value is, of at most so many members.
pub fn needs_list<'a>(
    value: &'a Value,
    most: usize,
    at: &FieldPath,
) -> Result<&'a [Value], KindRefused>
    ensures list { Shows (λ list. items_view list.now) result
        (needs_list most at.now (view value.entry.now)) }
    ensures few { IfOk result (λ list. length list.now ≤ most) }
{
    match value {
        Value::Array(items) => {
            let list = items.as_slice();
            if is_longer(list, most) {
                Err(refused_at(TOO_MANY, at)?)
            } else {
                Ok(list)
            }
        }
        _ => Err(refused_at(WRONG_KIND, at)?),
    }
}

#[tactic(auto, using(std::proofs::lemmas::Grind::common_steps))]
fn is_longer(list: &[Value], most: usize) -> bool
    ensures told { result ≡ nat_lt most (items_len (items_view list.now)) }
    ensures long { IsTrue result ↔ (most < length list.now) }
{
    most < list.len()
}

/// The members of a list, in order.
pub fn members<T: Readable>(
    alloc: Global,
    list: &[Value],
    at: &FieldPath,
    around: &T::Around,
) -> Result<List<T::Made>, KindRefused>
    ensures { Reads result (members (T.kind around.now) at.now 0 (items_view list.now)) }
{
    let mut out = List::with_capacity(alloc, list.len())?;
    for i in 0..list.len() {
        let value = &list[i];
        out.push(T::read(alloc, value, &at.member(i)?, around)?)?;
    }
    Ok(out)
}

/// A list of at most so many members.
pub fn list_of<T: Readable>(
    alloc: Global,
    value: &Value,
    most: usize,
    at: &FieldPath,
    around: &T::Around,
) -> Result<List<T::Made>, KindRefused>
    ensures { Reads result (list_of most (T.kind around.now) at.now (view value.now)) }
{
    members::<T>(alloc, needs_list(value, most, at)?, at, around)
}

/// A list of any length.
pub fn all_of<T: Readable>(
    alloc: Global,
    value: &Value,
    at: &FieldPath,
    around: &T::Around,
) -> Result<List<T::Made>, KindRefused>
    ensures { Reads result (all_of (T.kind around.now) at.now (view value.now)) }
{
    members::<T>(alloc, any_list(value, at)?, at, around)
}
