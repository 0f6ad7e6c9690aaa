//! Texts of ends that have one of their own.

ghost use Rattle.std.specs.Prelude.{◌≡◌, IfOk};
ghost use Rattle.wf_program.specs.Answers as answers;
ghost use Rattle.wf_program.specs.Statuses as statuses;

use crate::status::Status;
use base_types::{Bytes, Memory};
use json_fields::FieldPath;
use std::alloc::Global;
use wf_bundle::Document;

/// An end whose text was made for its run.
#[derive(Drop)]
pub(crate) struct Made {
    pub(crate) status: Status,
    pub(crate) text: Bytes,
}

pub(crate) fn valid_text(alloc: Global, document: &Document) -> Result<Bytes, Memory>
    ensures { IfOk result (λ text. text ≡ answers.valid_text document.now) }
{
    let count = document.workflows.len();
    let text = format!(in alloc; "valid {count}\n")?;
    Ok(Bytes::from_vec(text.into_bytes()))
}

pub(crate) fn not_json_text(alloc: Global, count: usize) -> Result<Bytes, Memory>
    ensures { IfOk result (λ text. text ≡ statuses.not_json_text count) }
{
    let text = format!(in alloc; "argo: not JSON, {count} bytes\n")?;
    Ok(Bytes::from_vec(text.into_bytes()))
}

fn item_text(alloc: Global, item: u32) -> Result<Bytes, Memory>
    ensures { IfOk result (λ text. text ≡ answers.item_text item) }
{
    let text = format!(in alloc; "argo: refused: item {item}")?;
    Ok(Bytes::from_vec(text.into_bytes()))
}

fn rule_text(alloc: Global, rule: u32) -> Result<Bytes, Memory>
    ensures { IfOk result (λ text. text ≡ answers.rule_text rule) }
{
    let text = format!(in alloc; ", rule {rule}")?;
    Ok(Bytes::from_vec(text.into_bytes()))
}

fn field_text(alloc: Global, field: &FieldPath) -> Result<Bytes, Memory>
    ensures { IfOk result (λ text. text ≡ answers.field_text field.now) }
{
    let text = format!(in alloc; ", {field}\n")?;
    Ok(Bytes::from_vec(text.into_bytes()))
}

pub(crate) fn refused_text(
    alloc: Global,
    item: u32,
    rule: u32,
    field: &FieldPath,
) -> Result<Bytes, Memory>
    ensures { IfOk result (λ text. text ≡ answers.refused_text item rule field.now) }
{
    let mut text = item_text(alloc, item)?;
    text.extend(rule_text(alloc, rule)?.as_slice())?;
    text.extend(field_text(alloc, field)?.as_slice())?;
    Ok(text)
}
