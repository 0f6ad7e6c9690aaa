//! The places of arguments, and of calls of templates.

ghost use Rattle.std.specs.Prelude.{◌≡◌, ◌++◌, OnOk};
ghost use Rattle.json_fields.specs.Paths.{member_of};
ghost use Rattle.wf_manifest.specs.Valid as valid;
ghost use Rattle.wf_places.specs.Calls as calls;
ghost use Rattle.wf_places.specs.Inside.Parts.{argument_place};
ghost use Rattle.wf_places.specs.Inside.Views.{around_of};

use crate::Place;
use crate::around::{Inside, Spot};
use crate::broken::{add_name, add_plain, note};
use crate::names::NameTable;
use crate::tables::TemplateTable;
use crate::tags::add_text_field;
use base_types::{Memory, Text, is_name};
use field_kinds::FieldPath;
use field_kinds::rules::UNKNOWN_NAME;
use wf_manifest::Argument;

// Adds the places of the argument at a position among the names.
fn add_argument(
    out: &mut Vec<Place>,
    inside: &Inside<'_, '_>,
    spot: Spot<'_>,
    names: &NameTable<'_>,
    position: usize,
    at: &FieldPath,
    argument: &Argument,
) -> Result<(), Memory>
    ensures { OnOk result (out.new.items ≡ out.old.items
        ++ argument_place (around_of inside.now spot.entry) names.now position at.now argument.now) }
{
    let again = names.is_before(position, &argument.name);
    add_name(out, again, is_name(argument.name.as_str()), at)?;
    add_text_field(out, inside, spot, at, "value", &argument.value)
}

fn add_all(
    out: &mut Vec<Place>,
    inside: &Inside<'_, '_>,
    spot: Spot<'_>,
    names: &NameTable<'_>,
    at: &FieldPath,
    arguments: &[Argument],
) -> Result<(), Memory>
    ensures { OnOk result (out.new.items ≡ out.old.items
        ++ calls.argument_places (around_of inside.now spot.entry) names.now at.now 0 arguments.now) }
{
    for i in 0..arguments.len() {
        let here = at.member(i)?;
        add_argument(out, inside, spot, names, i, &here, &arguments[i])?;
    }
    Ok(())
}

/// Adds the places of the arguments that are given to the object at a path.
pub(crate) fn add_arguments(
    out: &mut Vec<Place>,
    inside: &Inside<'_, '_>,
    spot: Spot<'_>,
    names: &NameTable<'_>,
    at: &FieldPath,
    arguments: &[Argument],
) -> Result<(), Memory>
    requires { names.now ≡ valid.argument_names arguments.now }
    ensures { OnOk result (out.new.items ≡ out.old.items
        ++ calls.arguments_places (around_of inside.now spot.entry) at.now arguments.now) }
{
    let list = at.field("arguments.parameters")?;
    add_all(out, inside, spot, names, &list, arguments)
}

/// Adds the places of a template's name.
pub(crate) fn add_template_name(
    out: &mut Vec<Place>,
    templates: &TemplateTable<'_>,
    path: &FieldPath,
    name: &Text,
) -> Result<(), Memory>
    ensures { OnOk result (out.new.items ≡ out.old.items
        ++ calls.template_places templates.now path.now name.now) }
{
    let there = templates.named(name).is_some();
    note(out, UNKNOWN_NAME, !there, path)?;
    add_plain(out, path, name)
}
