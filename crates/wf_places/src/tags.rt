//! Texts with tags: which tags may stand in them, and whether what they name is there.

ghost use Rattle.std.specs.Prelude.{◌≡◌, ◌++◌, IfOk, OnOk, bytes_eq, nat_le, option_copied};
ghost use Rattle.std.specs.List.{find};
ghost use Rattle.base_types.specs.Names.{is_among};
ghost use Rattle.json_fields.specs.Paths.{field_of};
ghost use Rattle.tag_names.specs.Views.{field_of as asked_of, tag_of};
ghost use Rattle.tag_text.specs.Pieces.{part_of};
ghost use Rattle.wf_places.specs.Tags as tags;
ghost use Rattle.wf_places.specs.Inside.Pieces.{piece_places};
ghost use Rattle.wf_places.specs.Inside.Views.{around_of, before_of};

use crate::Place;
use crate::around::{
    Before, Inside, NOWHERE, OF_CALLS, OF_INPUTS, OF_ITEMS, OF_WORKFLOW, ONLY_NAME, Spot,
};
use crate::broken::note;
use crate::names::NameTable;
use crate::tables::{Calls, TemplateTable};
use base_types::{Memory, Text};
use field_kinds::FieldPath;
use field_kinds::rules::{MISPLACED_TAG, NOT_ANCESTOR, UNKNOWN_NAME, UNKNOWN_PARAMETER};
use std::alloc::Global;
use tag_names::{StepField, TagName, tag_named};
use tag_text::{Piece, TagText};

fn needs(tag: TagName<'_>) -> u32
    ensures { result ≡ tags.needs (tag_of tag.entry) }
{
    match tag {
        TagName::WorkflowName => ONLY_NAME,
        TagName::WorkflowStatus | TagName::WorkflowParameter(_) => OF_WORKFLOW,
        TagName::InputParameter(_) => OF_INPUTS,
        TagName::Step(_, _) | TagName::Task(_, _) => OF_CALLS,
        TagName::Item | TagName::ItemKey(_) => OF_ITEMS,
        TagName::Unknown => NOWHERE,
    }
}

fn is_allowed(reach: u32, tag: TagName<'_>) -> bool
    ensures { result ≡ nat_le (tags.needs (tag_of tag.entry)) reach }
{
    needs(tag) <= reach
}

fn has_call(alloc: Global, calls: &Calls<'_>, name: &str) -> Result<bool, Memory>
    ensures { IfOk result (λ has. has ≡ is_among (tags.call_names calls.now) name.now) }
{
    let name = Text::from_text(alloc, name)?;
    Ok(calls.has(&name))
}

fn is_there(inside: &Inside<'_, '_>, _spot: Spot<'_>, tag: TagName<'_>) -> Result<bool, Memory>
    ensures { IfOk result
        (λ there. there ≡ tags.is_there (around_of inside.now _spot.entry) (tag_of tag.entry)) }
{
    let alloc = inside.outside.alloc;
    match tag {
        TagName::Step(name, _) => has_call(alloc, &inside.steps, name),
        TagName::Task(name, _) => has_call(alloc, &inside.tasks, name),
        _ => Ok(true),
    }
}

fn has_name(alloc: Global, names: &NameTable<'_>, name: &str) -> Result<bool, Memory>
    ensures { IfOk result (λ has. has ≡ is_among names.now name.now) }
{
    let name = Text::from_text(alloc, name)?;
    Ok(names.has(&name))
}

fn has_output(
    alloc: Global,
    templates: &TemplateTable<'_>,
    calls: &Calls<'_>,
    name: &str,
    output: &str,
) -> Result<bool, Memory>
    ensures { IfOk result (λ has. has ≡ tags.call_has_output templates.now
        (find (λ call. bytes_eq call.name name.now) calls.now) output.now) }
{
    let name = Text::from_text(alloc, name)?;
    let output = Text::from_text(alloc, output)?;
    match calls.named(&name) {
        None => Ok(false),
        Some(call) => Ok(templates.has_output(&call.template, &output)),
    }
}

fn has_field(
    alloc: Global,
    templates: &TemplateTable<'_>,
    calls: &Calls<'_>,
    name: &str,
    field: StepField<'_>,
) -> Result<bool, Memory>
    ensures { IfOk result
        (λ has. has ≡ tags.has_field templates.now calls.now name.now (asked_of field.entry)) }
{
    match field {
        StepField::Parameter(output) => has_output(alloc, templates, calls, name, output),
        StepField::Result | StepField::Status => Ok(true),
    }
}

fn is_declared(inside: &Inside<'_, '_>, _spot: Spot<'_>, tag: TagName<'_>) -> Result<bool, Memory>
    ensures { IfOk result
        (λ declared. declared ≡ tags.is_declared (around_of inside.now _spot.entry) (tag_of tag.entry)) }
{
    let outside = inside.outside;
    let alloc = outside.alloc;
    match tag {
        TagName::WorkflowParameter(name) => has_name(alloc, &outside.arguments, name),
        TagName::InputParameter(name) => has_name(alloc, &inside.inputs, name),
        TagName::Step(name, field) => {
            has_field(alloc, &outside.templates, &inside.steps, name, field)
        }
        TagName::Task(name, field) => {
            has_field(alloc, &outside.templates, &inside.tasks, name, field)
        }
        _ => Ok(true),
    }
}

fn is_own(own: Option<&Text>, name: &Text) -> bool
    ensures { result ≡ tags.is_own (option_copied own.entry) name.now }
{
    match own {
        None => false,
        Some(own) => own.as_str() == name.as_str(),
    }
}

fn stands_before(inside: &Inside<'_, '_>, before: Before<'_>, name: &Text) -> bool
    ensures { result ≡ tags.stands_before inside.now.steps
        (before_of inside.now.ancestry before.entry) name.now }
{
    match before {
        Before::All => true,
        Before::First(count) => inside.steps.is_before(count, name),
        Before::Ancestors(task) => inside.ancestry.is_ancestor(name, task),
    }
}

fn call_before(inside: &Inside<'_, '_>, spot: Spot<'_>, name: &str) -> Result<bool, Memory>
    ensures { IfOk result (λ before. before ≡ tags.call_before (around_of inside.now spot.entry) name.now) }
{
    let name = Text::from_text(inside.outside.alloc, name)?;
    Ok(is_own(spot.own, &name) || stands_before(inside, spot.before, &name))
}

fn is_before(inside: &Inside<'_, '_>, spot: Spot<'_>, tag: TagName<'_>) -> Result<bool, Memory>
    ensures { IfOk result
        (λ before. before ≡ tags.is_before (around_of inside.now spot.entry) (tag_of tag.entry)) }
{
    match tag {
        TagName::Step(name, _) | TagName::Task(name, _) => call_before(inside, spot, name),
        _ => Ok(true),
    }
}

fn add_tag(
    out: &mut Vec<Place>,
    inside: &Inside<'_, '_>,
    spot: Spot<'_>,
    path: &FieldPath,
    tag: TagName<'_>,
) -> Result<(), Memory>
    ensures { OnOk result (out.new.items
        ≡ out.old.items ++ tags.tag_places (around_of inside.now spot.entry) path.now (tag_of tag.entry)) }
{
    let there = is_there(inside, spot, tag)?;
    let declared = is_declared(inside, spot, tag)?;
    let before = is_before(inside, spot, tag)?;
    note(out, UNKNOWN_NAME, !there, path)?;
    note(out, MISPLACED_TAG, !is_allowed(spot.reach, tag), path)?;
    note(out, UNKNOWN_PARAMETER, !declared, path)?;
    note(out, NOT_ANCESTOR, !before, path)
}

fn add_piece(
    out: &mut Vec<Place>,
    inside: &Inside<'_, '_>,
    spot: Spot<'_>,
    path: &FieldPath,
    piece: Piece<'_>,
) -> Result<(), Memory>
    ensures { OnOk result (out.new.items
        ≡ out.old.items ++ piece_places (around_of inside.now spot.entry) path.now (part_of piece.entry)) }
{
    match piece {
        Piece::Plain(_) => Ok(()),
        Piece::Tag(name) => add_tag(out, inside, spot, path, tag_named(name)),
    }
}

/// Adds the places of a text.
pub(crate) fn add_text(
    out: &mut Vec<Place>,
    inside: &Inside<'_, '_>,
    spot: Spot<'_>,
    path: &FieldPath,
    text: &TagText,
) -> Result<(), Memory>
    ensures { OnOk result (out.new.items
        ≡ out.old.items ++ tags.text_places (around_of inside.now spot.entry) path.now text.now) }
{
    for i in 0..text.len() {
        add_piece(out, inside, spot, path, text.piece(i))?;
    }
    Ok(())
}

/// Adds the places of a field's text.
pub(crate) fn add_text_field(
    out: &mut Vec<Place>,
    inside: &Inside<'_, '_>,
    spot: Spot<'_>,
    at: &FieldPath,
    name: &str,
    text: &TagText,
) -> Result<(), Memory>
    ensures { OnOk result (out.new.items
        ≡ out.old.items ++ tags.text_places (around_of inside.now spot.entry) (field_of at.now name.now) text.now) }
{
    let path = at.field(name)?;
    add_text(out, inside, spot, &path, text)
}

/// The same of a field that may be absent.
pub(crate) fn add_text_option(
    out: &mut Vec<Place>,
    inside: &Inside<'_, '_>,
    spot: Spot<'_>,
    at: &FieldPath,
    name: &str,
    text: &Option<TagText>,
) -> Result<(), Memory>
    ensures { OnOk result (out.new.items
        ≡ out.old.items ++ tags.text_if_there (around_of inside.now spot.entry) (field_of at.now name.now) text.now) }
{
    match text {
        None => Ok(()),
        Some(text) => add_text_field(out, inside, spot, at, name, text),
    }
}
