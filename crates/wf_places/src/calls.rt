//! The places of steps and tasks with their exit hooks.

ghost use Rattle.std.specs.Prelude.{◌≡◌, ◌+◌, ◌++◌, IfOk, OnOk};
ghost use Rattle.wf_manifest.specs.Valid as valid;
ghost use Rattle.wf_places.specs.Calls as calls;
ghost use Rattle.wf_places.specs.Inside.Views.{around_of};

use crate::Place;
use crate::arguments::{add_arguments, add_template_name};
use crate::around::{Before, Inside, OF_CALLS, OF_ITEMS, Spot};
use crate::broken::{add_name, note};
use crate::loops::add_loop;
use crate::names::{NameTable, names_of};
use crate::tags::add_text_option;
use base_types::{Memory, Text, TryCopy};
use field_kinds::FieldPath;
use field_kinds::rules::UNKNOWN_PARAMETER;
use node_names::is_step_name;
use std::alloc::Global;
use wf_manifest::{Argument, Call, Group, Hook};

// The names of the arguments.
fn argument_names<'a>(alloc: Global, given: &'a [Argument]) -> Result<NameTable<'a>, Memory>
    ensures { IfOk result (λ names. names ≡ valid.argument_names given.entry.now) }
{
    NameTable::new(alloc, names_of(alloc, given)?)
}

// ---- exit hooks

fn hook_path(at: &FieldPath, hook: &Hook) -> Result<FieldPath, Memory>
    ensures { IfOk result (λ path. path ≡ calls.hook_path at.now hook.now) }
{
    if hook.short {
        at.field("onExit")
    } else {
        at.field("hooks.exit")
    }
}

fn hook_template_path(path: &FieldPath, hook: &Hook) -> Result<FieldPath, Memory>
    ensures { IfOk result (λ found. found ≡ calls.hook_template_path path.now hook.now) }
{
    if hook.short {
        path.copy()
    } else {
        path.field("template")
    }
}

fn add_hook_call(
    out: &mut Vec<Place>,
    inside: &Inside<'_, '_>,
    spot: Spot<'_>,
    path: &FieldPath,
    hook: &Hook,
) -> Result<(), Memory>
    ensures { OnOk result (out.new.items
        ≡ out.old.items ++ calls.hook_call (around_of inside.now spot.entry) path.now hook.now) }
{
    let given = hook.arguments.as_slice();
    let names = argument_names(inside.outside.alloc, given)?;
    let lacks = inside
        .outside
        .templates
        .lacks_value(&hook.template, &names, given);
    let template_path = hook_template_path(path, hook)?;
    note(out, UNKNOWN_PARAMETER, lacks, path)?;
    add_template_name(
        out,
        &inside.outside.templates,
        &template_path,
        &hook.template,
    )?;
    add_arguments(out, inside, spot, &names, path, given)
}

fn add_hook<'c>(
    out: &mut Vec<Place>,
    inside: &Inside<'_, '_>,
    spot: Spot<'c>,
    at: &FieldPath,
    own: &'c Text,
    hook: &Option<Hook>,
) -> Result<(), Memory>
    ensures { OnOk result (out.new.items
        ≡ out.old.items ++ calls.hook_places (around_of inside.now spot.entry) at.now own.entry.now hook.now) }
{
    match hook {
        None => Ok(()),
        Some(hook) => {
            let path = hook_path(at, hook)?;
            let spot = Spot {
                own: Some(own),
                ..spot
            };
            add_hook_call(out, inside, spot, &path, hook)
        }
    }
}

// ---- steps and tasks

// A looped call may name its item.
fn call_reach(call: &Call) -> u32
    ensures { result ≡ calls.call_reach call.now }
{
    if call.each.is_some() {
        OF_ITEMS
    } else {
        OF_CALLS
    }
}

/// Adds the places of a call up to its arguments.
pub(crate) fn add_front(
    out: &mut Vec<Place>,
    inside: &Inside<'_, '_>,
    spot: Spot<'_>,
    again: bool,
    at: &FieldPath,
    call: &Call,
) -> Result<(), Memory>
    ensures { OnOk result (out.new.items
        ≡ out.old.items ++ calls.call_front (around_of inside.now spot.entry) again at.now call.now) }
{
    let given = call.arguments.as_slice();
    let names = argument_names(inside.outside.alloc, given)?;
    let lacks = inside
        .outside
        .templates
        .lacks_value(&call.template, &names, given);
    let template_path = at.field("template")?;
    note(out, UNKNOWN_PARAMETER, lacks, at)?;
    add_name(out, again, is_step_name(call.name.as_str()), at)?;
    add_template_name(
        out,
        &inside.outside.templates,
        &template_path,
        &call.template,
    )?;
    let spot = Spot {
        reach: call_reach(call),
        ..spot
    };
    add_arguments(out, inside, spot, &names, at, given)
}

/// Adds the places of a call behind its arguments.
pub(crate) fn add_back<'c>(
    out: &mut Vec<Place>,
    inside: &Inside<'_, '_>,
    spot: Spot<'c>,
    at: &FieldPath,
    call: &'c Call,
) -> Result<(), Memory>
    ensures { OnOk result (out.new.items
        ≡ out.old.items ++ calls.call_back (around_of inside.now spot.entry) at.now call.entry.now) }
{
    let looped = Spot {
        reach: call_reach(call),
        ..spot
    };
    add_text_option(out, inside, looped, at, "when", &call.when)?;
    add_loop(out, inside, spot, at, &call.each)?;
    add_hook(out, inside, looped, at, &call.name, &call.exit)
}

// ---- groups

// No memory holds more steps than a number can count.
fn sum(one: usize, other: usize) -> Result<usize, Memory>
    ensures { IfOk result (λ both. both ≡ one + other) }
{
    match one.checked_add(other) {
        Some(both) => Ok(both),
        None => Err(Memory),
    }
}

fn add_step<'c>(
    out: &mut Vec<Place>,
    inside: &Inside<'_, '_>,
    spot: Spot<'c>,
    position: usize,
    at: &FieldPath,
    call: &'c Call,
) -> Result<(), Memory>
    ensures { OnOk result (out.new.items
        ≡ out.old.items ++ calls.step_places (around_of inside.now spot.entry) position at.now call.entry.now) }
{
    let again = inside.steps.is_before(position, &call.name);
    add_front(out, inside, spot, again, at, call)?;
    add_back(out, inside, spot, at, call)
}

// Adds the places of a group's members, behind so many steps.
fn add_group<'c>(
    out: &mut Vec<Place>,
    inside: &Inside<'_, '_>,
    spot: Spot<'c>,
    position: usize,
    at: &FieldPath,
    group: &'c [Call],
) -> Result<(), Memory>
    ensures { OnOk result (out.new.items ≡ out.old.items
        ++ calls.group_places (around_of inside.now spot.entry) at.now position 0 group.entry.now) }
{
    for j in 0..group.len() {
        let here = at.member(j)?;
        let count = sum(position, j)?;
        add_step(out, inside, spot, count, &here, &group[j])?;
    }
    Ok(())
}

/// Adds the places of groups of steps.
pub(crate) fn add_groups<'c>(
    out: &mut Vec<Place>,
    inside: &Inside<'_, '_>,
    spot: Spot<'c>,
    at: &FieldPath,
    groups: &'c [Group],
) -> Result<(), Memory>
    ensures { OnOk result (out.new.items ≡ out.old.items
        ++ calls.groups_places (around_of inside.now spot.entry) at.now 0 0 groups.entry.now) }
{
    let mut position: usize = 0;
    for i in 0..groups.len() {
        let here = at.member(i)?;
        let spot = Spot {
            before: Before::First(position),
            ..spot
        };
        add_group(out, inside, spot, position, &here, groups[i].as_slice())?;
        position = sum(position, groups[i].len())?;
    }
    Ok(())
}
