//! The items of a document.

ghost use Rattle.std.specs.Prelude.{◌≡◌, codes};
ghost use Rattle.serde_json.specs.View.{view};
ghost use Rattle.field_kinds.specs.Refusing.{Reads};
ghost use Rattle.item_reader.specs.Items as reads;

use crate::commands::read_commands;
use crate::{Commands, Config, Plan, Schedule};
use field_kinds::rules::UNKNOWN_KIND;
use field_kinds::{FieldPath, Fields, KindRefused, needs_object, refused_at};
use serde_json::Value;
use std::alloc::Global;
use wf_manifest::Manifest;
use wf_reader::read_workflow;

/// An item of a document.
#[derive(Debug, Drop)]
pub enum Item {
    Workflow(Manifest),
    Config(Config),
    Outcomes(Plan),
    Commands(Commands),
    Schedule(Schedule),
}

/// The kinds of items.
#[derive(Clone, Copy, PartialEq, Eq)]
pub enum ItemKind {
    Workflow,
    Config,
    Outcomes,
    Commands,
    Schedule,
}

/// Whether a field of a value is this text.
pub fn says(item: &Value, name: &str, text: &str) -> bool
    ensures { result ≡ reads.says name.now text.now (view item.now) }
{
    match item.get(name) {
        Some(Value::String(found)) => found.as_str() == text,
        _ => false,
    }
}

fn is_workflow(item: &Value) -> bool
    ensures { result ≡ reads.is_workflow (view item.now) }
{
    says(item, "kind", "Workflow") && says(item, "apiVersion", "argoproj.io/v1alpha1")
}

fn is_config(item: &Value) -> bool
    ensures { result ≡ reads.is_config (view item.now) }
{
    says(item, "kind", "ConfigMap") && says(item, "apiVersion", "v1")
}

fn kind_of(item: &Value) -> Option<ItemKind>
    ensures { result ≡ reads.kind_of (view item.now) }
{
    if is_workflow(item) {
        Some(ItemKind::Workflow)
    } else if is_config(item) {
        Some(ItemKind::Config)
    } else if says(item, "kind", "PodOutcomes") {
        Some(ItemKind::Outcomes)
    } else if says(item, "kind", "Commands") {
        Some(ItemKind::Commands)
    } else if says(item, "kind", "Schedule") {
        Some(ItemKind::Schedule)
    } else {
        None
    }
}

fn item_by(
    alloc: Global,
    position: u32,
    kind: Option<ItemKind>,
    item: &Value,
    at: &FieldPath,
) -> Result<Item, KindRefused>
    ensures { Reads result (reads.item_by position kind at.now (view item.now)) }
{
    match kind {
        Some(ItemKind::Workflow) => Ok(Item::Workflow(read_workflow(alloc, position, item, at)?)),
        Some(ItemKind::Config) => Ok(Item::Config(Config::read_fields(alloc, item, at, &())?)),
        Some(ItemKind::Outcomes) => Ok(Item::Outcomes(Plan::read_fields(alloc, item, at, &())?)),
        Some(ItemKind::Commands) => Ok(Item::Commands(read_commands(alloc, item, at)?)),
        Some(ItemKind::Schedule) => Ok(Item::Schedule(Schedule::read_fields(
            alloc,
            item,
            at,
            &(),
        )?)),
        None => Err(refused_at(UNKNOWN_KIND, at)?),
    }
}

/// The item at a position of a document: an object of one of the kinds `Workflow`, `ConfigMap`, `PodOutcomes`, `Commands`
/// and `Schedule`. Paths begin at the item.
pub fn read_item(
    alloc: Global,
    position: u32,
    item: &Value,
    at: &FieldPath,
) -> Result<Item, KindRefused>
    ensures { Reads result (reads.item position at.now (view item.now)) }
{
    needs_object(item, at)?;
    item_by(alloc, position, kind_of(item), item, at)
}
