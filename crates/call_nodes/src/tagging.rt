//! The tags of a step or task.

ghost use Rattle.std.specs.Prelude.{◌≡◌, ◌++◌, IfOk, OnOk};
ghost use Rattle.meaning.specs.Lines.{Made, tags_of, result_tag, status_tag, output_tags};
ghost use Rattle.scopes.specs.Values.{HasValuesOf};

use base_types::{Memory, Text, TryCopy};
use scopes::Tags;
use tree_types::{Node, Params, Phase, fulfilled};

/// Adds the tags of a step or task of this name: `steps.` or `tasks.` is the prefix. None while its node is not
/// fulfilled.
pub fn add_tags_of(tags: &mut Tags, prefix: &str, name: &Text, node: &Node) -> Result<(), Memory>
    ensures { OnOk result ((m : Made) → m.own.node ≡ node.now →
        HasValuesOf tags.new (tags_of (prefix.now ++ name.now) m ++ tags.old)) }
{
    if !fulfilled(node.phase) {
        return Ok(());
    }
    let mut label = Text::from_text(name.allocator(), prefix)?;
    label.push(name.as_str())?;
    add_outputs(tags, &label, &node.outputs.params)?;
    add_result(tags, &label, &node.outputs.result)?;
    add_status(tags, &label, node.phase)
}

fn joined(label: &Text, more: &str) -> Result<Text, Memory>
    ensures { IfOk result (λ tag. tag ≡ label.now ++ more.now) }
{
    let mut tag = label.copy()?;
    tag.push(more)?;
    Ok(tag)
}

fn add_outputs(tags: &mut Tags, label: &Text, params: &Params) -> Result<(), Memory>
    ensures { OnOk result (HasValuesOf tags.new (output_tags label.now params.now ++ tags.old)) }
{
    let prefix = joined(label, ".outputs.parameters.")?;
    tags.add_parameters(prefix.as_str(), params)
}

fn add_result(tags: &mut Tags, label: &Text, said: &Option<Text>) -> Result<(), Memory>
    ensures { OnOk result (HasValuesOf tags.new (result_tag label.now said.now ++ tags.old)) }
{
    match said {
        None => Ok(()),
        Some(text) => tags.add(joined(label, ".outputs.result")?, text.copy()?),
    }
}

fn add_status(tags: &mut Tags, label: &Text, phase: Phase) -> Result<(), Memory>
    ensures { OnOk result (HasValuesOf tags.new (status_tag label.now phase ++ tags.old)) }
{
    let word = Text::from_text(label.allocator(), phase.word())?;
    tags.add(joined(label, ".status")?, word)
}
