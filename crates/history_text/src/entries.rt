//! Entries, as lines.

ghost use Rattle.std.specs.Prelude.{◌≡◌, IfOk};
ghost use Rattle.serde_json.specs.View.{view};
ghost use Rattle.tree_types.specs.declared.entry.Entry.TheVariants as entry;
ghost use Rattle.history_text.specs.Lines as lines;

use crate::list::Items;
use base_types::{Memory, Text};
use serde_json::Value;
use std::alloc::Global;
use tree_types::{Entry, Facts, HolderKey, LockId, Outcome, Outputs, Path, Rank};

fn submitted(
    alloc: Global,
    workflow: &Text,
    old: &Option<Text>,
    facts: &Facts,
) -> Result<Value, Memory>
    ensures { IfOk result (λ value. view value
        ≡ lines.entry_data (entry.Submit workflow.now old.now facts.now)) }
{
    let items = Items::of(alloc, "submit")?
        .text(workflow)?
        .text_or_null(old)?
        .facts(facts)?;
    Ok(items.into_value())
}

fn written(alloc: Global, workflow: &Text, version: u64, facts: &Facts) -> Result<Value, Memory>
    ensures { IfOk result (λ value. view value
        ≡ lines.entry_data (entry.Write workflow.now version facts.now)) }
{
    let items = Items::of(alloc, "write")?
        .text(workflow)?
        .whole(version)?
        .facts(facts)?;
    Ok(items.into_value())
}

fn created(
    alloc: Global,
    workflow: &Text,
    node: &Text,
    path: &Path,
    begin: u64,
) -> Result<Value, Memory>
    ensures { IfOk result (λ value. view value
        ≡ lines.entry_data (entry.Create workflow.now node.now path.now begin)) }
{
    let items = Items::of(alloc, "create")?
        .text(workflow)?
        .text(node)?
        .path(path)?
        .whole(begin)?;
    Ok(items.into_value())
}

fn finished(alloc: Global, workflow: &Text, node: &Text, outcome: &Outcome) -> Result<Value, Memory>
    ensures { IfOk result (λ value. view value
        ≡ lines.entry_data (entry.Finish workflow.now node.now outcome.now)) }
{
    let items = Items::of(alloc, "finish")?
        .text(workflow)?
        .text(node)?
        .outcome(outcome)?;
    Ok(items.into_value())
}

fn filed(alloc: Global, lock: &LockId, key: &HolderKey, rank: &Rank) -> Result<Value, Memory>
    ensures { IfOk result (λ value. view value
        ≡ lines.entry_data (entry.File lock.now key.now rank.now)) }
{
    let items = Items::of(alloc, "file")?
        .text(&lock.text)?
        .text(&key.workflow)?
        .path(&key.path)?
        .rank(rank)?;
    Ok(items.into_value())
}

fn released(alloc: Global, lock: &LockId, key: &HolderKey) -> Result<Value, Memory>
    ensures { IfOk result (λ value. view value
        ≡ lines.entry_data (entry.Release lock.now key.now)) }
{
    let items = Items::of(alloc, "release")?
        .text(&lock.text)?
        .text(&key.workflow)?
        .path(&key.path)?;
    Ok(items.into_value())
}

fn saved(
    alloc: Global,
    cache: &Text,
    key: &Text,
    writer: &HolderKey,
    outputs: &Outputs,
    tick: u64,
) -> Result<Value, Memory>
    ensures { IfOk result (λ value. view value
        ≡ lines.entry_data (entry.Save cache.now key.now writer.now outputs.now tick)) }
{
    let items = Items::of(alloc, "save")?
        .text(cache)?
        .text(key)?
        .text(&writer.workflow)?
        .path(&writer.path)?
        .outputs(outputs)?
        .whole(tick)?;
    Ok(items.into_value())
}

/// The JSON value that an entry is written as.
pub(crate) fn entry_value(alloc: Global, entry: &Entry) -> Result<Value, Memory>
    ensures { IfOk result (λ value. view value ≡ lines.entry_data entry.now) }
{
    match entry {
        Entry::Submit {
            workflow,
            old,
            facts,
        } => submitted(alloc, workflow, old, facts),
        Entry::Write {
            workflow,
            version,
            facts,
        } => written(alloc, workflow, *version, facts),
        Entry::Create {
            workflow,
            node,
            path,
            begin,
        } => created(alloc, workflow, node, path, *begin),
        Entry::Finish {
            workflow,
            node,
            outcome,
        } => finished(alloc, workflow, node, outcome.value()),
        Entry::File { lock, key, rank } => filed(alloc, lock, key, rank.value()),
        Entry::Release { lock, key } => released(alloc, lock, key),
        Entry::Save {
            cache,
            key,
            writer,
            outputs,
            tick,
        } => saved(alloc, cache, key, writer, outputs.value(), *tick),
        Entry::Tick { to } => Ok(Items::of(alloc, "tick")?.whole(*to)?.into_value()),
    }
}
