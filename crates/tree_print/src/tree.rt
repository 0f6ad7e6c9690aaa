//! The text of a workflow and its tree.

ghost use Rattle.std.specs.Prelude.{◌≡◌, IfOk};
ghost use Rattle.tree_types.specs.Texts.{tree_text};

use crate::line::{push_node, push_workflow};
use base_types::{Bytes, Memory, Text};
use std::alloc::Global;
use tree_types::{Phase, Tree};

/// The line of a workflow, and then a line for each node of its tree. Each line ends with a line feed.
pub fn print_tree(
    alloc: Global,
    workflow: &Text,
    phase: Phase,
    tree: &Tree,
) -> Result<Bytes, Memory>
    ensures { IfOk result (λ text. text ≡ tree_text workflow.now phase tree.now.nodes) }
{
    let mut text = Bytes::new(alloc);
    push_workflow(&mut text, workflow, phase)?;
    let nodes = tree.nodes.as_slice();
    for node in nodes {
        push_node(&mut text, node)?;
    }
    Ok(text)
}
