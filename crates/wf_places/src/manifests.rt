//! The places of a manifest.

ghost use Rattle.std.specs.Prelude.{◌≡◌, ◌++◌, IfOk, OnOk};
ghost use Rattle.wf_manifest.specs.Valid as valid;
ghost use Rattle.wf_places.specs.Calls as calls;
ghost use Rattle.wf_places.specs.Places as places;
ghost use Rattle.wf_places.specs.Inside.Views.{around_template, around_workflow};

use crate::Place;
use crate::ancestry::Ancestry;
use crate::arguments::{add_arguments, add_template_name};
use crate::around::{Inside, ONLY_NAME, Outside};
use crate::broken::{add_plain, note};
use crate::names::{NameTable, names_of};
use crate::tables::{Calls, LockLimits, TemplateTable};
use crate::templates::{add_lock, add_templates, reaching};
use base_types::{Memory, Text};
use field_kinds::FieldPath;
use field_kinds::rules::UNKNOWN_PARAMETER;
use std::alloc::Global;
use wf_manifest::{Argument, Manifest};

// Adds the places of the call of a template with the workflow's arguments.
fn add_entry(
    out: &mut Vec<Place>,
    outside: &Outside<'_>,
    path: &FieldPath,
    name: &Text,
    given: &[Argument],
) -> Result<(), Memory>
    requires { outside.now.arguments ≡ valid.argument_names given.now }
    ensures { OnOk result (out.new.items ≡ out.old.items
        ++ places.entry_places outside.now.templates given.now path.now name.now) }
{
    let lacks = outside
        .templates
        .lacks_value(name, &outside.arguments, given);
    note(out, UNKNOWN_PARAMETER, lacks, path)?;
    add_template_name(out, &outside.templates, path, name)
}

fn add_entry_option(
    out: &mut Vec<Place>,
    outside: &Outside<'_>,
    path: &FieldPath,
    name: &Option<Text>,
    given: &[Argument],
) -> Result<(), Memory>
    requires { outside.now.arguments ≡ valid.argument_names given.now }
    ensures { OnOk result (out.new.items ≡ out.old.items
        ++ places.entry_if_there outside.now.templates given.now path.now name.now) }
{
    match name {
        None => Ok(()),
        Some(name) => add_entry(out, outside, path, name, given),
    }
}

// Where no template is, none of its parts are.
fn bare<'o, 'm>(outside: &'o Outside<'m>) -> Result<Inside<'o, 'm>, Memory>
    ensures { IfOk result (λ inside. around_template inside ≡ around_workflow outside.entry.now) }
{
    let alloc = outside.alloc;
    let inputs = NameTable::new(alloc, Vec::new(alloc))?;
    let steps = Calls::new(alloc, Vec::new(alloc))?;
    let tasks = Calls::new(alloc, Vec::new(alloc))?;
    let ancestry = Ancestry::new(alloc, &[])?;
    Ok(Inside {
        outside,
        inputs,
        steps,
        tasks,
        ancestry,
    })
}

// Adds the places of the workflow's arguments.
fn add_given(
    out: &mut Vec<Place>,
    outside: &Outside<'_>,
    at: &FieldPath,
    given: &[Argument],
) -> Result<(), Memory>
    requires { outside.now.arguments ≡ valid.argument_names given.now }
    ensures { OnOk result (out.new.items ≡ out.old.items
        ++ calls.arguments_places (around_workflow outside.now) at.now given.now) }
{
    let inside = bare(outside)?;
    add_arguments(
        out,
        &inside,
        reaching(ONLY_NAME),
        &outside.arguments,
        at,
        given,
    )
}

fn path_of(alloc: Global, name: &str) -> Result<FieldPath, Memory>
    ensures { IfOk result (λ path. path ≡ name.now) }
{
    FieldPath::root(alloc).field(name)
}

// Adds the places of the entrypoint and its arguments.
fn add_entered(
    out: &mut Vec<Place>,
    outside: &Outside<'_>,
    manifest: &Manifest,
) -> Result<(), Memory>
    requires { outside.now.arguments ≡ valid.argument_names manifest.now.arguments }
    ensures { OnOk result (out.new.items ≡ out.old.items
        ++ places.entered_places (around_workflow outside.now) manifest.now) }
{
    let spec = path_of(outside.alloc, "spec")?;
    let path = path_of(outside.alloc, "spec.entrypoint")?;
    let given = manifest.arguments.as_slice();
    add_entry(out, outside, &path, &manifest.entrypoint, given)?;
    add_given(out, outside, &spec, given)
}

// Adds the places of the exit handler and the workflow's lock.
fn add_ended(
    out: &mut Vec<Place>,
    limits: &LockLimits<'_>,
    outside: &Outside<'_>,
    manifest: &Manifest,
) -> Result<(), Memory>
    requires { outside.now.arguments ≡ valid.argument_names manifest.now.arguments }
    ensures { OnOk result (out.new.items ≡ out.old.items
        ++ places.ended_places limits.now (around_workflow outside.now) manifest.now) }
{
    let spec = path_of(outside.alloc, "spec")?;
    let path = path_of(outside.alloc, "spec.onExit")?;
    let given = manifest.arguments.as_slice();
    add_entry_option(out, outside, &path, &manifest.on_exit, given)?;
    add_lock(out, limits, &spec, &manifest.lock)
}

fn add_manifest(
    out: &mut Vec<Place>,
    limits: &LockLimits<'_>,
    outside: &Outside<'_>,
    manifest: &Manifest,
) -> Result<(), Memory>
    requires { outside.now.arguments ≡ valid.argument_names manifest.now.arguments }
    ensures { OnOk result (out.new.items ≡ out.old.items
        ++ places.parts_places limits.now (around_workflow outside.now) manifest.now) }
{
    let namespace = path_of(outside.alloc, "metadata.namespace")?;
    let templates = path_of(outside.alloc, "spec.templates")?;
    add_plain(out, &namespace, &manifest.namespace)?;
    add_entered(out, outside, manifest)?;
    add_ended(out, limits, outside, manifest)?;
    add_templates(
        out,
        limits,
        outside,
        &templates,
        manifest.templates.as_slice(),
    )
}

// What a workflow declares.
fn outside_of<'m>(alloc: Global, manifest: &'m Manifest) -> Result<Outside<'m>, Memory>
    ensures around { IfOk result
        (λ outside. around_workflow outside ≡ places.outside manifest.entry.now) }
    ensures arguments { IfOk result
        (λ outside. outside.arguments ≡ valid.argument_names manifest.entry.now.arguments) }
{
    let arguments = NameTable::new(alloc, names_of(alloc, manifest.arguments.as_slice())?)?;
    let templates = TemplateTable::new(alloc, manifest.templates.as_slice())?;
    Ok(Outside {
        alloc,
        arguments,
        templates,
    })
}

/// The places of a manifest at which a rule is broken, in reading order. The locks of `limits` have limits.
pub fn places_of(
    alloc: Global,
    limits: &LockLimits<'_>,
    manifest: &Manifest,
) -> Result<Vec<Place>, Memory>
    ensures { IfOk result (λ found. found.items ≡ places.manifest_places limits.now manifest.now) }
{
    let outside = outside_of(alloc, manifest)?;
    let mut out = Vec::new(alloc);
    add_manifest(&mut out, limits, &outside, manifest)?;
    Ok(out)
}
