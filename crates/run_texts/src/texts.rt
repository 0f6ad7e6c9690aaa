//! The text of a run.

ghost use Rattle.std.specs.Prelude.{◌≡◌, ◌++◌, IfOk, OnOk, [], if◌then◌else◌};
ghost use Rattle.run_texts.specs.RunTexts as texts;

use crate::Shown;
use crate::counting::counts_of;
use crate::trees::trees_text;
use base_types::{Bytes, Memory};
use history_text::print_history;
use io_edge::Outage;
use object_store::Store;
use std::alloc::Global;
use tree_print::print_summary;
use wf_object::WfContent;

fn summary_of<O: Outage>(alloc: Global, store: &Store<WfContent, O>) -> Result<Bytes, Memory>
    ensures { IfOk result (λ text. text ≡ texts.summary_of store.now.history) }
{
    let counts = counts_of(store)?;
    print_summary(alloc, &counts)
}

// The trees, or what is counted.
fn workflows_text<O: Outage>(
    alloc: Global,
    store: &Store<WfContent, O>,
    summary: bool,
) -> Result<Bytes, Memory>
    ensures { IfOk result (λ text. text ≡ (if summary
        then texts.summary_of store.now.history else texts.trees_text store.now.history)) }
{
    if summary {
        summary_of(alloc, store)
    } else {
        trees_text(alloc, store)
    }
}

// Adds the history, where it is wanted.
fn push_history<O: Outage>(
    text: &mut Bytes,
    store: &Store<WfContent, O>,
    history: bool,
) -> Result<(), Memory>
    ensures { OnOk result (text.new
        ≡ text.old ++ (if history then texts.entries_text store.now.history else [])) }
{
    if history {
        let entries = print_history(text.allocator(), store.entries())?;
        text.extend(entries.as_slice())?;
    }
    Ok(())
}

/// The trees of the submitted workflows or what the run counts, and then its history where that is wanted.
pub fn run_text<O: Outage>(
    alloc: Global,
    store: &Store<WfContent, O>,
    shown: Shown,
) -> Result<Bytes, Memory>
    ensures { IfOk result
        (λ text. text ≡ texts.run_text shown.summary shown.history store.now.history) }
{
    let mut text = workflows_text(alloc, store, shown.summary)?;
    push_history(&mut text, store, shown.history)?;
    Ok(text)
}
