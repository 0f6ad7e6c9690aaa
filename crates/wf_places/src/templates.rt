//! The places of templates.

ghost use Rattle.std.specs.Prelude.{◌≡◌, ◌++◌, None, IfOk, OnOk, map};
ghost use Rattle.wf_manifest.specs.Valid as valid;
ghost use Rattle.wf_places.specs.Places as places;
ghost use Rattle.wf_places.specs.Inside.Parts as parts;
ghost use Rattle.wf_places.specs.declared.around.Before.TheVariants as kept;
ghost use Rattle.wf_places.specs.Inside.Views.{around_of, around_template, around_workflow};

use crate::Place;
use crate::ancestry::Ancestry;
use crate::around::{Before, Inside, OF_CALLS, OF_INPUTS, OF_WORKFLOW, Outside, Spot};
use crate::broken::{add_name, add_plain_field, add_plain_option, note_field};
use crate::calls::add_groups;
use crate::dags::add_dag;
use crate::names::{NameTable, names_of};
use crate::tables::{Calls, LockLimits};
use crate::tags::{add_text_field, add_text_option};
use base_types::{Memory, is_name};
use field_kinds::FieldPath;
use field_kinds::rules::{DOUBLE_NAME, UNKNOWN_LOCK};
use std::alloc::Global;
use tag_text::TagText;
use tree_types::LockId;
use wf_manifest::{Body, Call, Group, Input, Memoize, OutputDecl, Task, Template};

// Where a text stands that reaches so far.
pub(crate) fn reaching<'c>(reach: u32) -> Spot<'c>
    ensures { result ≡ record { reach = reach; before = kept.All; own = None } }
{
    Spot {
        reach,
        before: Before::All,
        own: None,
    }
}

// ---- parameters

fn add_input(
    out: &mut Vec<Place>,
    inside: &Inside<'_, '_>,
    spot: Spot<'_>,
    position: usize,
    at: &FieldPath,
    input: &Input,
) -> Result<(), Memory>
    ensures { OnOk result (out.new.items ≡ out.old.items
        ++ parts.input_place (around_of inside.now spot.entry) inside.now.inputs position at.now input.now) }
{
    let again = inside.inputs.is_before(position, &input.name);
    add_name(out, again, is_name(input.name.as_str()), at)?;
    add_text_option(out, inside, spot, at, "value", &input.value)?;
    add_text_option(out, inside, spot, at, "default", &input.default)
}

fn add_inputs(
    out: &mut Vec<Place>,
    inside: &Inside<'_, '_>,
    spot: Spot<'_>,
    at: &FieldPath,
    inputs: &[Input],
) -> Result<(), Memory>
    ensures { OnOk result (out.new.items ≡ out.old.items
        ++ places.input_places (around_of inside.now spot.entry) inside.now.inputs at.now 0 inputs.now) }
{
    for i in 0..inputs.len() {
        let here = at.member(i)?;
        add_input(out, inside, spot, i, &here, &inputs[i])?;
    }
    Ok(())
}

fn add_source(
    out: &mut Vec<Place>,
    inside: &Inside<'_, '_>,
    spot: Spot<'_>,
    at: &FieldPath,
    output: &OutputDecl,
) -> Result<(), Memory>
    ensures { OnOk result (out.new.items ≡ out.old.items
        ++ places.source_places (around_of inside.now spot.entry) at.now output.now) }
{
    add_plain_option(out, at, "valueFrom.path", &output.path)?;
    add_text_option(out, inside, spot, at, "valueFrom.parameter", &output.from)?;
    add_plain_option(out, at, "valueFrom.default", &output.default)
}

fn add_output(
    out: &mut Vec<Place>,
    inside: &Inside<'_, '_>,
    spot: Spot<'_>,
    names: &NameTable<'_>,
    position: usize,
    at: &FieldPath,
    output: &OutputDecl,
) -> Result<(), Memory>
    ensures { OnOk result (out.new.items ≡ out.old.items
        ++ parts.output_place (around_of inside.now spot.entry) names.now position at.now output.now) }
{
    let again = names.is_before(position, &output.name);
    add_name(out, again, is_name(output.name.as_str()), at)?;
    add_source(out, inside, spot, at, output)
}

fn add_all_outputs(
    out: &mut Vec<Place>,
    inside: &Inside<'_, '_>,
    spot: Spot<'_>,
    names: &NameTable<'_>,
    at: &FieldPath,
    outputs: &[OutputDecl],
) -> Result<(), Memory>
    ensures { OnOk result (out.new.items ≡ out.old.items
        ++ places.output_places (around_of inside.now spot.entry) names.now at.now 0 outputs.now) }
{
    for i in 0..outputs.len() {
        let here = at.member(i)?;
        add_output(out, inside, spot, names, i, &here, &outputs[i])?;
    }
    Ok(())
}

fn add_outputs(
    out: &mut Vec<Place>,
    inside: &Inside<'_, '_>,
    spot: Spot<'_>,
    at: &FieldPath,
    outputs: &[OutputDecl],
) -> Result<(), Memory>
    ensures { OnOk result (out.new.items ≡ out.old.items ++ places.output_places
        (around_of inside.now spot.entry) (map (λ output. output.name) outputs.now) at.now 0 outputs.now) }
{
    let names = output_table(inside.outside.alloc, outputs)?;
    add_all_outputs(out, inside, spot, &names, at, outputs)
}

fn output_table<'a>(alloc: Global, outputs: &'a [OutputDecl]) -> Result<NameTable<'a>, Memory>
    ensures { IfOk result (λ names. names ≡ map (λ output. output.name) outputs.entry.now) }
{
    NameTable::new(alloc, names_of(alloc, outputs)?)
}

fn add_declared(
    out: &mut Vec<Place>,
    inside: &Inside<'_, '_>,
    at: &FieldPath,
    template: &Template,
) -> Result<(), Memory>
    ensures { OnOk result (out.new.items ≡ out.old.items
        ++ places.declared_places (around_template inside.now) at.now template.now) }
{
    let inputs = at.field("inputs.parameters")?;
    let outputs = at.field("outputs.parameters")?;
    add_inputs(
        out,
        inside,
        reaching(OF_WORKFLOW),
        &inputs,
        template.inputs.as_slice(),
    )?;
    add_outputs(
        out,
        inside,
        reaching(OF_CALLS),
        &outputs,
        template.outputs.as_slice(),
    )
}

// ---- locks

fn has_limit(limits: &LockLimits<'_>, lock: &LockId) -> bool
    ensures { result ≡ places.has_limit limits.now lock.now }
{
    lock.text.as_str().starts_with("mutex/") || limits.has(&lock.text)
}

fn add_one_lock(
    out: &mut Vec<Place>,
    limits: &LockLimits<'_>,
    at: &FieldPath,
    lock: &LockId,
) -> Result<(), Memory>
    ensures { OnOk result (out.new.items ≡ out.old.items
        ++ places.lock_place limits.now at.now lock.now) }
{
    let known = has_limit(limits, lock);
    note_field(out, UNKNOWN_LOCK, !known, at, "synchronization")?;
    add_plain_field(out, at, "synchronization.mutex.name", &lock.text)
}

/// Adds the places of a lock.
pub(crate) fn add_lock(
    out: &mut Vec<Place>,
    limits: &LockLimits<'_>,
    at: &FieldPath,
    lock: &Option<LockId>,
) -> Result<(), Memory>
    ensures { OnOk result (out.new.items ≡ out.old.items
        ++ places.lock_places limits.now at.now lock.now) }
{
    match lock {
        None => Ok(()),
        Some(lock) => add_one_lock(out, limits, at, lock),
    }
}

// ---- bodies

fn add_memo(
    out: &mut Vec<Place>,
    inside: &Inside<'_, '_>,
    spot: Spot<'_>,
    at: &FieldPath,
    memoize: &Option<Memoize>,
) -> Result<(), Memory>
    ensures { OnOk result (out.new.items ≡ out.old.items
        ++ places.memo_places (around_of inside.now spot.entry) at.now memoize.now) }
{
    match memoize {
        None => Ok(()),
        Some(memoize) => add_text_field(out, inside, spot, at, "memoize.key", &memoize.key),
    }
}

fn add_suspend(
    out: &mut Vec<Place>,
    inside: &Inside<'_, '_>,
    spot: Spot<'_>,
    at: &FieldPath,
    duration: &Option<TagText>,
) -> Result<(), Memory>
    ensures { OnOk result (out.new.items ≡ out.old.items
        ++ places.suspend_places (around_of inside.now spot.entry) at.now duration.now) }
{
    add_text_option(out, inside, spot, at, "suspend.duration", duration)
}

fn add_body(
    out: &mut Vec<Place>,
    inside: &Inside<'_, '_>,
    at: &FieldPath,
    body: &Body,
) -> Result<(), Memory>
    requires { inside.now.ancestry ≡ parts.dag_tasks body.now }
    ensures { OnOk result (out.new.items ≡ out.old.items
        ++ places.body_places (around_template inside.now) at.now body.now) }
{
    match body {
        Body::Pod => Ok(()),
        Body::Steps(groups) => {
            let path = at.field("steps")?;
            add_groups(out, inside, reaching(OF_CALLS), &path, groups.as_slice())
        }
        Body::Dag(dag) => {
            let path = at.field("dag")?;
            add_dag(out, inside, reaching(OF_CALLS), &path, dag)
        }
        Body::Suspend(duration) => add_suspend(out, inside, reaching(OF_INPUTS), at, duration),
    }
}

// ---- templates

fn add_calls<'a>(calls: &mut Vec<&'a Call>, group: &'a [Call]) -> Result<(), Memory>
    ensures { OnOk result (map (λ call. call.now) calls.new.items
        ≡ map (λ call. call.now) calls.old.items ++ group.entry.now) }
{
    for i in 0..group.len() {
        calls.push(&group[i])?;
    }
    Ok(())
}

fn steps_in<'a>(alloc: Global, groups: &'a [Group]) -> Result<Vec<&'a Call>, Memory>
    ensures { IfOk result (λ calls. map (λ call. call.now) calls.items ≡ valid.calls_in groups.entry.now) }
{
    let mut calls = Vec::new(alloc);
    for i in 0..groups.len() {
        add_calls(&mut calls, groups[i].as_slice())?;
    }
    Ok(calls)
}

fn calls_in<'a>(alloc: Global, tasks: &'a [Task]) -> Result<Vec<&'a Call>, Memory>
    ensures { IfOk result (λ calls.
        map (λ call. call.now) calls.items ≡ map (λ task. task.call) tasks.entry.now) }
{
    let mut calls = Vec::new(alloc);
    for i in 0..tasks.len() {
        calls.push(&tasks[i].call)?;
    }
    Ok(calls)
}

fn steps_of<'a>(alloc: Global, body: &'a Body) -> Result<Calls<'a>, Memory>
    ensures { IfOk result (λ steps. steps ≡ places.steps_of body.entry.now) }
{
    match body {
        Body::Steps(groups) => Calls::new(alloc, steps_in(alloc, groups.as_slice())?),
        _ => Calls::new(alloc, Vec::new(alloc)),
    }
}

fn tasks_of<'a>(alloc: Global, body: &'a Body) -> Result<Calls<'a>, Memory>
    ensures { IfOk result (λ tasks. tasks ≡ places.tasks_of body.entry.now) }
{
    match body {
        Body::Dag(dag) => Calls::new(alloc, calls_in(alloc, dag.tasks.as_slice())?),
        _ => Calls::new(alloc, Vec::new(alloc)),
    }
}

fn ancestry_of<'a>(alloc: Global, body: &'a Body) -> Result<Ancestry<'a>, Memory>
    ensures { IfOk result (λ ancestry. ancestry ≡ parts.dag_tasks body.entry.now) }
{
    match body {
        Body::Dag(dag) => Ancestry::new(alloc, dag.tasks.as_slice()),
        _ => Ancestry::new(alloc, &[]),
    }
}

// What a template declares.
fn inside_of<'o, 'm>(
    outside: &'o Outside<'m>,
    template: &'m Template,
) -> Result<Inside<'o, 'm>, Memory>
    ensures template { IfOk result (λ inside. around_template inside
        ≡ places.inside (around_workflow outside.entry.now) template.entry.now) }
    ensures tasks { IfOk result (λ inside. inside.ancestry ≡ parts.dag_tasks template.entry.now.body) }
{
    let alloc = outside.alloc;
    let inputs = NameTable::new(alloc, names_of(alloc, template.inputs.as_slice())?)?;
    let steps = steps_of(alloc, &template.body)?;
    let tasks = tasks_of(alloc, &template.body)?;
    let ancestry = ancestry_of(alloc, &template.body)?;
    Ok(Inside {
        outside,
        inputs,
        steps,
        tasks,
        ancestry,
    })
}

// Adds what stands in a template behind its name.
fn add_inside(
    out: &mut Vec<Place>,
    limits: &LockLimits<'_>,
    outside: &Outside<'_>,
    at: &FieldPath,
    template: &Template,
) -> Result<(), Memory>
    ensures { OnOk result (out.new.items ≡ out.old.items ++ places.template_inside limits.now
        (places.inside (around_workflow outside.now) template.now) at.now template.now) }
{
    let inside = inside_of(outside, template)?;
    add_template_parts(out, limits, &inside, at, template)
}

fn add_template_parts(
    out: &mut Vec<Place>,
    limits: &LockLimits<'_>,
    inside: &Inside<'_, '_>,
    at: &FieldPath,
    template: &Template,
) -> Result<(), Memory>
    requires { inside.now.ancestry ≡ parts.dag_tasks template.now.body }
    ensures { OnOk result (out.new.items ≡ out.old.items
        ++ places.template_inside limits.now (around_template inside.now) at.now template.now) }
{
    add_declared(out, inside, at, template)?;
    add_lock(out, limits, at, &template.lock)?;
    add_memo(out, inside, reaching(OF_INPUTS), at, &template.memoize)?;
    add_body(out, inside, at, &template.body)
}

fn add_template(
    out: &mut Vec<Place>,
    limits: &LockLimits<'_>,
    outside: &Outside<'_>,
    position: usize,
    at: &FieldPath,
    template: &Template,
) -> Result<(), Memory>
    ensures { OnOk result (out.new.items ≡ out.old.items
        ++ parts.template_place limits.now (around_workflow outside.now) position at.now template.now) }
{
    let again = outside.templates.is_before(position, &template.name);
    note_field(out, DOUBLE_NAME, again, at, "name")?;
    add_plain_field(out, at, "name", &template.name)?;
    add_inside(out, limits, outside, at, template)
}

/// Adds the places of the templates of a manifest.
pub(crate) fn add_templates(
    out: &mut Vec<Place>,
    limits: &LockLimits<'_>,
    outside: &Outside<'_>,
    at: &FieldPath,
    templates: &[Template],
) -> Result<(), Memory>
    ensures { OnOk result (out.new.items ≡ out.old.items
        ++ places.templates_places limits.now (around_workflow outside.now) at.now 0 templates.now) }
{
    for i in 0..templates.len() {
        let here = at.member(i)?;
        add_template(out, limits, outside, i, &here, &templates[i])?;
    }
    Ok(())
}
