//! What a run counts.

ghost use Rattle.std.specs.Prelude.{◌≡◌, ◌+◌, [], Some, IfOk, OnOk};
ghost use Rattle.run_texts.specs.RunTexts.{counts_of};
ghost use Rattle.law.specs.Contents.{Story, flow_of};
ghost use Rattle.run_texts.specs.Inside.Counting.{in_phase, with_standing, with_flow, with_entry, counts_over};

use base_types::{Memory, Text};
use io_edge::Outage;
use object_store::Store;
use tree_print::Counts;
use tree_types::{Entry, Phase};
use wf_object::{WfContent, WfObject, workflow_at};

// No memory holds so much that a sum passes the bound of a count.
fn raise(count: &mut u64, by: u64) -> Result<(), Memory>
    ensures { OnOk result (count.new ≡ count.old + by) }
{
    match count.checked_add(by) {
        None => Err(Memory),
        Some(sum) => {
            *count = sum;
            Ok(())
        }
    }
}

fn add_phase(counts: &mut Counts, phase: Phase) -> Result<(), Memory>
    ensures { OnOk result (counts.new ≡ in_phase phase counts.old) }
{
    match phase {
        Phase::Pending => raise(&mut counts.pending, 1),
        Phase::Running => raise(&mut counts.running, 1),
        Phase::Succeeded => raise(&mut counts.succeeded, 1),
        Phase::Failed => raise(&mut counts.failed, 1),
        Phase::Error => raise(&mut counts.error, 1),
        Phase::Skipped | Phase::Omitted => Ok(()),
    }
}

// Adds what stands: its phase and its nodes.
fn add_standing(counts: &mut Counts, workflow: &WfObject) -> Result<(), Memory>
    ensures { OnOk result (counts.new ≡ with_standing workflow.now counts.old) }
{
    add_phase(counts, workflow.phase())?;
    raise(&mut counts.nodes, workflow.state().count() as u64)
}

fn add_workflow<O: Outage>(
    counts: &mut Counts,
    store: &Store<WfContent, O>,
    name: &Text,
) -> Result<(), Memory>
    ensures { OnOk result (counts.new ≡ with_flow (flow_of store.now.history name.now) counts.old) }
{
    raise(&mut counts.workflows, 1)?;
    match workflow_at(store, name)? {
        None => Ok(()),
        Some(workflow) => add_standing(counts, workflow),
    }
}

fn add_entry<O: Outage>(
    counts: &mut Counts,
    store: &Store<WfContent, O>,
    entry: &Entry,
) -> Result<(), Memory>
    ensures { OnOk result (counts.new ≡ with_entry store.now.history entry.now counts.old) }
{
    match entry {
        Entry::Submit { workflow, .. } => add_workflow(counts, store, workflow),
        Entry::Create { .. } => raise(&mut counts.pods, 1),
        _ => Ok(()),
    }
}

fn no_counts() -> Counts
    ensures { (h : Story) → result ≡ counts_over h [] }
{
    Counts {
        workflows: 0,
        pending: 0,
        running: 0,
        succeeded: 0,
        failed: 0,
        error: 0,
        nodes: 0,
        pods: 0,
    }
}

/// What the run counts, by one walk over its entries. No tree is listed for it.
pub(crate) fn counts_of<O: Outage>(store: &Store<WfContent, O>) -> Result<Counts, Memory>
    ensures { IfOk result (λ counts. counts ≡ counts_of store.now.history) }
{
    let mut counts = no_counts();
    let entries = store.entries().as_slice();
    for entry in entries {
        add_entry(&mut counts, store, entry)?;
    }
    Ok(counts)
}
