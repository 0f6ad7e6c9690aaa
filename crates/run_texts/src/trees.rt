//! The trees of the workflows of a run.

ghost use Rattle.std.specs.Prelude.{◌≡◌, ◌++◌, IfOk, OnOk};
ghost use Rattle.run_texts.specs.RunTexts as texts;
ghost use Rattle.run_texts.specs.Inside.Trees.{text_by};

use base_types::{Bytes, Memory, Text};
use io_edge::Outage;
use object_store::Store;
use std::alloc::Global;
use tree_print::print_tree;
use tree_types::Entry;
use wf_object::{WfContent, WfObject, workflow_at};

fn tree_text(alloc: Global, name: &Text, workflow: &WfObject) -> Result<Bytes, Memory>
    ensures { IfOk result (λ text. text ≡ texts.flow_text name.now workflow.now) }
{
    let told = workflow.state().tell()?;
    print_tree(alloc, name, told.phase, &told.tree)
}

fn push_tree(text: &mut Bytes, name: &Text, workflow: &WfObject) -> Result<(), Memory>
    ensures { OnOk result (text.new ≡ text.old ++ texts.flow_text name.now workflow.now) }
{
    let tree = tree_text(text.allocator(), name, workflow)?;
    text.extend(tree.as_slice())
}

fn push_workflow<O: Outage>(
    text: &mut Bytes,
    store: &Store<WfContent, O>,
    name: &Text,
) -> Result<(), Memory>
    ensures { OnOk result (text.new ≡ text.old ++ texts.workflow_text store.now.history name.now) }
{
    match workflow_at(store, name)? {
        None => Ok(()),
        Some(workflow) => push_tree(text, name, workflow),
    }
}

// Adds the tree of the workflow that an entry submits.
fn push_submitted<O: Outage>(
    text: &mut Bytes,
    store: &Store<WfContent, O>,
    entry: &Entry,
) -> Result<(), Memory>
    ensures { OnOk result (text.new ≡ text.old ++ text_by store.now.history entry.now) }
{
    match entry {
        Entry::Submit { workflow, .. } => push_workflow(text, store, workflow),
        _ => Ok(()),
    }
}

/// The trees of the submitted workflows, in the order in which they were submitted.
pub(crate) fn trees_text<O: Outage>(
    alloc: Global,
    store: &Store<WfContent, O>,
) -> Result<Bytes, Memory>
    ensures { IfOk result (λ text. text ≡ texts.trees_text store.now.history) }
{
    let mut text = Bytes::new(alloc);
    let entries = store.entries().as_slice();
    for entry in entries {
        push_submitted(&mut text, store, entry)?;
    }
    Ok(text)
}
