//! Notes of broken rules.

ghost use Rattle.std.specs.Prelude.{◌≡◌, ◌++◌, OnOk, not};
ghost use Rattle.json_fields.specs.Paths.{field_of};
ghost use Rattle.wf_places.specs.Broken as broken;

use crate::Place;
use base_types::{Memory, Text, TryCopy};
use field_kinds::FieldPath;
use field_kinds::rules::{BAD_NAME, DOUBLE_NAME, MISPLACED_TAG};

/// Notes the path, if the rule is broken there.
pub(crate) fn note(
    out: &mut Vec<Place>,
    rule: u32,
    is_broken: bool,
    path: &FieldPath,
) -> Result<(), Memory>
    ensures { OnOk result (out.new.items ≡ out.old.items ++ broken.broken rule is_broken path.now) }
{
    if is_broken {
        out.push(Place {
            rule,
            field: path.copy()?,
        })?;
    }
    Ok(())
}

/// Notes the field of the object at a path, if the rule is broken there.
pub(crate) fn note_field(
    out: &mut Vec<Place>,
    rule: u32,
    is_broken: bool,
    at: &FieldPath,
    name: &str,
) -> Result<(), Memory>
    ensures { OnOk result (out.new.items
        ≡ out.old.items ++ broken.broken rule is_broken (field_of at.now name.now)) }
{
    if is_broken {
        out.push(Place {
            rule,
            field: at.field(name)?,
        })?;
    }
    Ok(())
}

fn has_tag(text: &[u8]) -> bool
    ensures { result ≡ broken.has_tag text.now }
{
    for i in 0..text.len() {
        if text[i..].starts_with(b"{{") {
            return true;
        }
    }
    false
}

/// Adds the place of a text in which no tag may stand.
pub(crate) fn add_plain(out: &mut Vec<Place>, path: &FieldPath, text: &Text) -> Result<(), Memory>
    ensures { OnOk result (out.new.items ≡ out.old.items ++ broken.plain_places path.now text.now) }
{
    let tagged = has_tag(text.as_str().as_bytes());
    note(out, MISPLACED_TAG, tagged, path)
}

/// The same of a field.
pub(crate) fn add_plain_field(
    out: &mut Vec<Place>,
    at: &FieldPath,
    name: &str,
    text: &Text,
) -> Result<(), Memory>
    ensures { OnOk result (out.new.items
        ≡ out.old.items ++ broken.plain_places (field_of at.now name.now) text.now) }
{
    let tagged = has_tag(text.as_str().as_bytes());
    note_field(out, MISPLACED_TAG, tagged, at, name)
}

/// The same of a field that may be absent.
pub(crate) fn add_plain_option(
    out: &mut Vec<Place>,
    at: &FieldPath,
    name: &str,
    text: &Option<Text>,
) -> Result<(), Memory>
    ensures { OnOk result (out.new.items
        ≡ out.old.items ++ broken.plain_if_there (field_of at.now name.now) text.now) }
{
    match text {
        None => Ok(()),
        Some(text) => add_plain_field(out, at, name, text),
    }
}

/// Adds the place of a name: whether an earlier one of its list is equal, and whether it is of its grammar.
pub(crate) fn add_name(
    out: &mut Vec<Place>,
    again: bool,
    fits: bool,
    at: &FieldPath,
) -> Result<(), Memory>
    ensures { OnOk result (out.new.items ≡ out.old.items ++ broken.name_places again fits at.now) }
{
    note_field(out, DOUBLE_NAME, again, at, "name")?;
    note_field(out, BAD_NAME, !fits, at, "name")
}
