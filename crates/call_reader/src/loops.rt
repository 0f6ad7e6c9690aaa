//! Loops: over a list that stands there or that a text says, and over a row of numbers.

ghost use Rattle.std.specs.Prelude.{◌≡◌, ◌||◌};
ghost use Rattle.serde_json.specs.View.{view};
ghost use Rattle.serde_json.specs.Find.{get};
ghost use Rattle.field_kinds.specs.Fields as fields;
ghost use Rattle.field_kinds.specs.Refusing.{Reads};
ghost use Rattle.call_reader.specs.Calls as reads;

use crate::Tagged;
use crate::texts::LoopItems;
use field_kinds::rules::UNSUPPORTED;
use field_kinds::{
    FieldPath, Fields, KindRefused, Object, has, missing_unless, no_second, optional, optional_by,
    refused_field, written_text_by,
};
use serde_json::Value;
use std::alloc::Global;
use tag_text::TagText;
use wf_manifest::{Json, Loop};

// Whether one of two fields is there.
fn has_either(object: &Value, one: &str, other: &str) -> bool
    ensures { result ≡ (fields.has one.now (view object.now) || fields.has other.now (view object.now)) }
{
    has(object, one) || has(object, other)
}

// The fields of a row of numbers.
struct SequenceFields;

impl Fields for SequenceFields {
    type Made = Loop;

    type Around = ();

    ghost fields = { λ _. reads.sequence_fields };

    #[tactic(auto, unfolding(crate::specs::Calls::sequence_fields))]
    fn read_fields(
        alloc: Global,
        sequence: &Value,
        at: &FieldPath,
        _around: &(),
    ) -> Result<Loop, KindRefused> {
        missing_unless(has_either(sequence, "count", "end"), &at.field("count")?)?;
        let count = optional_by::<Tagged>(alloc, sequence, "count", at)?;
        let start = optional_by::<Tagged>(alloc, sequence, "start", at)?;
        no_second(count.is_some(), sequence, "end", at)?;
        Ok(Loop::Sequence {
            count,
            start,
            end: optional_by::<Tagged>(alloc, sequence, "end", at)?,
            format: optional_by::<Tagged>(alloc, sequence, "format", at)?,
        })
    }
}

fn is_written(object: &Value, name: &str) -> bool
    ensures { result ≡ reads.is_written (get name.now (view object.now)) }
{
    match object.get(name) {
        None | Some(Value::Null) => false,
        Some(Value::String(text)) => !text.is_empty(),
        Some(_) => true,
    }
}

fn no_second_text(
    there: bool,
    object: &Value,
    name: &str,
    at: &FieldPath,
) -> Result<(), KindRefused>
    ensures { Reads result (reads.no_second_text there name.now at.now (view object.now)) }
{
    if there && is_written(object, name) {
        Err(refused_field(UNSUPPORTED, name, at)?)
    } else {
        Ok(())
    }
}

fn listed(items: Option<Json>, param: Option<TagText>) -> Option<Loop>
    ensures { result ≡ reads.listed items param }
{
    match (items, param) {
        (Some(items), _) => Some(Loop::Items(items)),
        (None, Some(param)) => Some(Loop::Param(param)),
        (None, None) => None,
    }
}

#[tactic(auto, unfolding(crate::specs::Calls::list_loop))]
fn list_loop(alloc: Global, call: &Value, at: &FieldPath) -> Result<Option<Loop>, KindRefused>
    ensures { Reads result (reads.list_loop at.now (view call.now)) }
{
    let items = optional::<LoopItems>(alloc, call, "withItems", at, &())?;
    no_second_text(items.is_some(), call, "withParam", at)?;
    let param = written_text_by::<Tagged>(alloc, call, "withParam", at)?;
    Ok(listed(items, param))
}

fn or_loop(over_list: Option<Loop>, over_numbers: Option<Loop>) -> Option<Loop>
    ensures { result ≡ reads.or_loop over_list over_numbers }
{
    match over_list {
        Some(over_list) => Some(over_list),
        None => over_numbers,
    }
}

// The loop of a step or task.
#[tactic(auto, unfolding(crate::specs::Calls::loop_said))]
pub(crate) fn loop_said(
    alloc: Global,
    call: &Value,
    at: &FieldPath,
) -> Result<Option<Loop>, KindRefused>
    ensures { Reads result (reads.loop_said at.now (view call.now)) }
{
    let over_list = list_loop(alloc, call, at)?;
    no_second(over_list.is_some(), call, "withSequence", at)?;
    let over_numbers = optional::<Object<SequenceFields>>(alloc, call, "withSequence", at, &())?;
    Ok(or_loop(over_list, over_numbers))
}
