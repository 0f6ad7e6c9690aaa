//! The lines of a workflow and of a node.

ghost use Rattle.std.specs.Prelude.{◌≡◌, ◌+◌, ◌*◌, ◌++◌, [], ◌∷◌, codes, replicate, OnOk};
ghost use Rattle.tree_types.specs.Phases.{phase_text};
ghost use Rattle.tree_types.specs.Texts.{kind_text, node_line, workflow_line};

use crate::escape::push_escaped;
use crate::note::push_note;
use base_types::{Bytes, Memory, Text};
use tree_types::{Kind, Node, Phase};

// Adds the line of a workflow, and a line feed.
pub(crate) fn push_workflow(text: &mut Bytes, name: &Text, phase: Phase) -> Result<(), Memory>
    ensures { OnOk result (text.new ≡ text.old ++ (workflow_line name.now phase ++ 10 ∷ [])) }
{
    text.extend(b"workflow ")?;
    push_escaped(text, name.as_str())?;
    text.extend(b" ")?;
    text.extend(phase.word().as_bytes())?;
    text.push(b'\n')
}

// Adds the line of a node, and a line feed.
pub(crate) fn push_node(text: &mut Bytes, node: &Node) -> Result<(), Memory>
    ensures { OnOk result (text.new ≡ text.old ++ (node_line node.now ++ 10 ∷ [])) }
{
    push_node_line(text, node)?;
    text.push(b'\n')
}

fn push_node_line(text: &mut Bytes, node: &Node) -> Result<(), Memory>
    ensures { OnOk result (text.new ≡ text.old ++ node_line node.now) }
{
    push_indent(text, node.depth)?;
    push_words(text, node.phase, node.kind)?;
    push_escaped(text, node.name.as_str())?;
    push_note(text, &node.note)
}

// Adds the words of a phase and a kind, with a space behind each.
fn push_words(text: &mut Bytes, phase: Phase, kind: Kind) -> Result<(), Memory>
    ensures { OnOk result
        (text.new ≡ text.old ++ phase_text phase ++ codes " " ++ kind_text kind ++ codes " ") }
{
    text.extend(phase.word().as_bytes())?;
    text.extend(b" ")?;
    text.extend(kind.word().as_bytes())?;
    text.extend(b" ")
}

// Adds two spaces for each depth.
fn push_indent(text: &mut Bytes, depth: u32) -> Result<(), Memory>
    ensures { OnOk result (text.new ≡ text.old ++ replicate (2 * depth) 32) }
{
    for _level in 0..depth {
        text.extend(b"  ")?;
    }
    Ok(())
}
