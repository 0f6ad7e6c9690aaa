//! Loops of one item.

ghost use Rattle.std.specs.Prelude.{◌≡◌, IfOk, Some, None, decimal};
ghost use Rattle.serde_json.specs.Data.{array, item, no_items};
ghost use Rattle.serde_json.specs.View.{view};
ghost use Rattle.tag_text.specs.Parts.{as_it_stands};
ghost use Rattle.wf_manifest.specs.declared.calls.Loop.TheVariants as each;

use base_types::{Memory, TryCopy};
use serde_json::Value;
use std::alloc::Global;
use tag_text::{TagText, parse_tags};
use wf_manifest::{Json, Loop};

// The loop over one value.
pub(crate) fn loop_of_value(alloc: Global, value: &Value) -> Result<Loop, Memory>
    ensures { IfOk result (λ one. one ≡ each.Items (array (item (view value.now) no_items))) }
{
    let values = vec![in alloc; value.clone()?]?;
    Ok(Loop::Items(Json::new(Value::Array(values))))
}

// The loop over one number, written in this format.
pub(crate) fn loop_of_number(
    alloc: Global,
    number: usize,
    format: &Option<TagText>,
) -> Result<Loop, Memory>
    ensures { IfOk result (λ one. one ≡ each.Sequence
        (Some (as_it_stands (decimal 1))) (Some (as_it_stands (decimal number))) None format.now) }
{
    Ok(Loop::Sequence {
        count: Some(number_text(alloc, 1)?),
        start: Some(number_text(alloc, number)?),
        end: None,
        format: format.copy()?,
    })
}

// The digits of a number, which have no tag: only want of memory can refuse them.
fn number_text(alloc: Global, number: usize) -> Result<TagText, Memory>
    ensures { IfOk result (λ text. text ≡ as_it_stands (decimal number)) }
{
    let digits = format!(in alloc; "{number}")?;
    match parse_tags(alloc, digits.as_str()) {
        Ok(text) => Ok(text),
        Err(_) => Err(Memory),
    }
}
