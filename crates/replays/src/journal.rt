//! The facts of a workflow in a history.

use base_types::{Memory, Text, TryCopy};
use std::alloc::Global;
use tree_types::{Entries, Entry, Facts};

// The facts that an entry adds to a workflow.
fn added<'a>(entry: &'a Entry, name: &Text) -> Option<&'a Facts> {
    match entry {
        Entry::Submit {
            workflow,
            facts,
            ..
        } if workflow == name => Some(facts),
        Entry::Write {
            workflow,
            facts,
            ..
        } if workflow == name => Some(facts),
        _ => None,
    }
}

/// The facts that entries add to the workflow of a name, in their order.
pub(crate) fn facts_of(alloc: Global, entries: &Entries, name: &Text) -> Result<Facts, Memory> {
    let mut facts = Facts::new(alloc);
    for entry in entries.as_slice() {
        if let Some(more) = added(entry, name) {
            for fact in more.as_slice() {
                facts.push(fact.copy()?)?;
            }
        }
    }
    Ok(facts)
}
