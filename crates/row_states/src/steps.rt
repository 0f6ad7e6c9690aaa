//! Steps templates.

ghost use Rattle.std.specs.Prelude.{◌≡◌, [], IfOk};
ghost use Rattle.tree_types.specs.declared.node.Kind.TheVariants as kinds;
ghost use Rattle.tree_types.specs.declared.node.Note.TheVariants as notes;
ghost use Rattle.meaning.specs.Lines as lines;
ghost use Rattle.meaning.specs.Outputs as outputs;

use base_types::Memory;
use call_nodes::computed_node;
use meaning::Place;
use scopes::Scope;
use tree_state::{Below, State};
use tree_types::{Kind, Phase, Wants};
use wf_manifest::OutputDecls;

/// The node of a steps template of this phase over its groups, whose last scope this is.
pub fn steps_state(
    place: Place,
    scope: &Scope,
    declared: &OutputDecls,
    phase: Phase,
    below: Below,
) -> Result<State, Memory>
    ensures { IfOk result (λ s. s ≡ lines.made
        (outputs.ended_node place kinds.Steps phase notes.None lines.no_outputs
        (outputs.computed scope.now declared.now)) [] below) }
{
    let node = computed_node(place, Kind::Steps, phase, scope, declared)?;
    let wants = Wants::new(declared.allocator());
    Ok(State::new(node, wants, below))
}
