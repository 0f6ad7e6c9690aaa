//! The limits that ConfigMaps give to the semaphores that workflows name.

ghost use Rattle.std.specs.Prelude.{◌≡◌, ◌++◌, [], IfOk, OnOk};
ghost use Rattle.std.specs.List.{flat_map};
ghost use Rattle.bundle_rules.specs.LockLimits as spec;

use crate::name_set::NameSet;
use base_types::{List, Memory, Text};
use field_kinds::Grammar;
use item_reader::{Config, Item};
use std::alloc::Global;
use template_reader::{HoldersText, semaphore_lock};
use tree_types::{Limit, Limits, LockId, Param};
use wf_manifest::{Manifest, Template};

// ---- the locks that workflows name

fn with_lock(names: NameSet, lock: &Option<LockId>) -> Result<NameSet, Memory>
    ensures { IfOk result (λ after. after ≡ names ++ spec.lock_text lock.now) }
{
    match lock {
        None => Ok(names),
        Some(lock) => names.with(&lock.text),
    }
}

fn with_template_locks(names: NameSet, templates: &[Template]) -> Result<NameSet, Memory>
    ensures { IfOk result
        (λ after. after ≡ names ++ flat_map (λ t. spec.lock_text t.lock) templates.now) }
{
    let mut after = names;
    for i in 0..templates.len() {
        after = with_lock(after, &templates[i].lock)?;
    }
    Ok(after)
}

fn with_locks_of(names: NameSet, manifest: &Manifest) -> Result<NameSet, Memory>
    ensures { IfOk result (λ after. after ≡ names ++ spec.locks_of manifest.now) }
{
    with_template_locks(
        with_lock(names, &manifest.lock)?,
        manifest.templates.as_slice(),
    )
}

fn with_locks_in(names: NameSet, item: &Item) -> Result<NameSet, Memory>
    ensures { IfOk result (λ after. after ≡ names ++ spec.locks_in item.now) }
{
    match item {
        Item::Workflow(manifest) => with_locks_of(names, manifest),
        _ => Ok(names),
    }
}

fn locks(alloc: Global, items: &[Item]) -> Result<NameSet, Memory>
    ensures { IfOk result (λ names. names ≡ spec.locks items.now) }
{
    let mut names = NameSet::new(alloc);
    for i in 0..items.len() {
        names = with_locks_in(names, &items[i])?;
    }
    Ok(names)
}

// ---- the limits that ConfigMaps give to them

fn add_limit(limits: &mut Limits, lock: LockId, limit: Option<u64>) -> Result<(), Memory>
    ensures { OnOk result (limits.new ≡ limits.old ++ spec.limit_by lock limit) }
{
    match limit {
        None => Ok(()),
        Some(limit) => limits.push(Limit { lock, limit }),
    }
}

fn add_entry(
    alloc: Global,
    limits: &mut Limits,
    named: &NameSet,
    config: &Text,
    entry: &Param,
) -> Result<(), Memory>
    ensures { OnOk result (limits.new ≡ limits.old ++ spec.entry_limit named.now config.now entry.now) }
{
    let lock = semaphore_lock(alloc, config, &entry.name)?;
    if named.has(&lock.text) {
        return add_limit(
            limits,
            lock,
            HoldersText::read(alloc, entry.value.as_str())?,
        );
    }
    Ok(())
}

fn add_config(
    alloc: Global,
    limits: &mut Limits,
    named: &NameSet,
    config: &Config,
) -> Result<(), Memory>
    ensures { OnOk result (limits.new ≡ limits.old ++ spec.config_limits named.now config.now) }
{
    let entries = config.entries.as_slice();
    for i in 0..entries.len() {
        add_entry(alloc, limits, named, &config.name, &entries[i])?;
    }
    Ok(())
}

// Adds the limits of an item, and gives the names of the ConfigMaps so far.
fn add_item(
    alloc: Global,
    limits: &mut Limits,
    named: &NameSet,
    before: NameSet,
    item: &Item,
) -> Result<NameSet, Memory>
    ensures limits { OnOk result (limits.new ≡ limits.old ++ spec.item_limits named.now before item.now) }
    ensures names { IfOk result (λ after. after ≡ before ++ spec.config_names item.now) }
{
    match item {
        Item::Config(config) => {
            if !before.has(&config.name) {
                add_config(alloc, limits, named, config)?;
            }
            before.with(&config.name)
        }
        _ => Ok(before),
    }
}

// The limits that the ConfigMaps give to these locks.
fn limits_by(alloc: Global, named: &NameSet, items: &[Item]) -> Result<Limits, Memory>
    ensures { IfOk result (λ limits. limits ≡ spec.limits_from named.now [] items.now) }
{
    let mut before = NameSet::new(alloc);
    let mut limits = List::new(alloc);
    for i in 0..items.len() {
        before = add_item(alloc, &mut limits, named, before, &items[i])?;
    }
    Ok(limits)
}

/// The limits of a document's semaphores: of those that its workflows name and a ConfigMap gives a limit. Another text than
/// a limit gives none.
pub fn limits_of(alloc: Global, items: &[Item]) -> Result<Limits, Memory>
    ensures { IfOk result (λ limits. limits ≡ spec.limits_of items.now) }
{
    limits_by(alloc, &locks(alloc, items)?, items)
}
