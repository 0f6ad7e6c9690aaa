//! The metadata of workflows.

ghost use Rattle.std.specs.Prelude.{◌≡◌, ◌++◌, IfOk, OnOk, replicate};
ghost use Rattle.serde_json.specs.View.{view};
ghost use Rattle.field_kinds.specs.Reading.{or_bad};
ghost use Rattle.field_kinds.specs.Refusing.{Reads};
ghost use Rattle.template_reader.specs.Names.{resource_name};
ghost use Rattle.wf_reader.specs.Workflows as reads;

use crate::limits::POSITION_DIGITS;
use base_types::{Memory, Text, TryCopy};
use field_kinds::rules::{BAD_TEXT, MISSING};
use field_kinds::{
    FieldPath, Fields, Grammar, KindRefused, optional_text_by, refused_at, refused_field,
    written_text, written_text_or,
};
use serde_json::Value;
use std::alloc::Global;
use template_reader::ResourceName;
use time_text::read_created;

// ---- names

fn push_zeros(text: &mut Text, count: usize) -> Result<(), Memory>
    ensures { OnOk result (text.new ≡ text.old ++ replicate count 48) }
{
    for _ in 0..count {
        text.push("0")?;
    }
    Ok(())
}

fn made_name(item: u32, prefix: &Text) -> Result<Text, Memory>
    ensures { IfOk result (λ name. name ≡ reads.made_name item prefix.now) }
{
    let digits = format!(in prefix.allocator(); "{item}")?;
    let mut name = prefix.copy()?;
    push_zeros(&mut name, POSITION_DIGITS.saturating_sub(digits.len()))?;
    name.push(digits.as_str())?;
    Ok(name)
}

fn resource_named(alloc: Global, name: &Text, at: &FieldPath) -> Result<Text, KindRefused>
    ensures { Reads result (or_bad at.now (resource_name name.now)) }
{
    match ResourceName::read(alloc, name.as_str())? {
        Some(name) => Ok(name),
        None => Err(refused_at(BAD_TEXT, at)?),
    }
}

fn generated(
    alloc: Global,
    item: u32,
    metadata: &Value,
    at: &FieldPath,
) -> Result<Text, KindRefused>
    ensures { Reads result (reads.generated item at.now (view metadata.now)) }
{
    match written_text(alloc, metadata, "generateName", at)? {
        None => Err(refused_field(MISSING, "name", at)?),
        Some(prefix) => {
            let name = made_name(item, &prefix)?;
            resource_named(alloc, &name, &at.field("generateName")?)
        }
    }
}

fn name_said(
    alloc: Global,
    item: u32,
    metadata: &Value,
    at: &FieldPath,
) -> Result<Text, KindRefused>
    ensures { Reads result (reads.name_said item at.now (view metadata.now)) }
{
    match optional_text_by::<ResourceName>(alloc, metadata, "name", at)? {
        Some(name) => Ok(name),
        None => generated(alloc, item, metadata, at),
    }
}

// ---- instants

/// The grammar of instants, in Unix seconds.
#[derive(Drop)]
pub struct Created;

impl Grammar for Created {
    type Meaning = i64;

    ghost meaning = { reads.created };

    fn read(_alloc: Global, text: &str) -> Result<Option<i64>, Memory> {
        Ok(read_created(text).ok())
    }
}

// ---- metadata

/// The metadata that are read.
#[derive(Drop)]
pub struct Metadata {
    pub name: Text,
    pub namespace: Text,
    pub created: i64,
}

impl Fields for Metadata {
    type Made = Metadata;

    type Around = u32;

    ghost fields = { λ item. reads.metadata_fields item };

    #[tactic(auto, unfolding(crate::specs::Workflows::metadata_fields))]
    fn read_fields(
        alloc: Global,
        metadata: &Value,
        at: &FieldPath,
        item: &u32,
    ) -> Result<Metadata, KindRefused> {
        Ok(Metadata {
            name: name_said(alloc, *item, metadata, at)?,
            namespace: written_text_or(alloc, metadata, "namespace", "default", at)?,
            created: optional_text_by::<Created>(
                alloc,
                metadata,
                "creationTimestamp",
                at,
            )?.unwrap_or(0),
        })
    }
}
