//! Nodes that are over: Succeeded only with their declared outputs.

ghost use Rattle.std.specs.Prelude.{◌≡◌, IfOk};
ghost use Rattle.tree_types.specs.declared.phase.Phase.TheVariants as phases;
ghost use Rattle.tree_types.specs.declared.node.Kind.TheVariants as kinds;
ghost use Rattle.tree_types.specs.declared.node.Note.TheVariants as notes;
ghost use Rattle.meaning.specs.Lines as lines;
ghost use Rattle.meaning.specs.Outputs as outs;
ghost use Rattle.call_nodes.specs.Endings.{ending as ending_of, given};

use crate::endings::completed_from;
use crate::{Ending, bare, computed, defaulted, node};
use base_types::{Memory, Text, TryCopy};
use meaning::Place;
use scopes::Scope;
use tree_types::{Kind, Node, Note, Outputs, Params, Phase};
use wf_manifest::OutputDecls;

/// A node of this phase, with these outputs. One that would be Succeeded has the outputs of its ending, and is Error
/// where it lacks one of them.
pub fn ended_node(
    place: Place,
    kind: Kind,
    phase: Phase,
    note: Note,
    outputs: Outputs,
    ending: Ending,
) -> Node
    ensures { result ≡ outs.ended_node place kind phase note outputs (ending_of ending) }
{
    match phase {
        Phase::Succeeded => succeeded_node(place, kind, note, ending),
        _ => node(place, kind, phase, note, outputs),
    }
}

fn succeeded_node(place: Place, kind: Kind, note: Note, ending: Ending) -> Node
    ensures { result ≡ outs.succeeded_node place kind note ending.outputs ending.lack }
{
    let Ending { outputs, lack } = ending;
    match lack {
        None => node(place, kind, Phase::Succeeded, note, outputs),
        Some(name) => node(place, kind, Phase::Error, Note::NoOutput(name), outputs),
    }
}

/// The node of a pod that ended in this phase and gave this text as its result, and these parameters.
pub fn pod_node(
    place: Place,
    declared: &OutputDecls,
    phase: Phase,
    note: Note,
    text: &Option<Text>,
    params: &Params,
) -> Result<Node, Memory>
    ensures { IfOk result (λ node. node ≡ outs.ended_node place kinds.Pod phase note
        (given text.now params.now) (outs.completed declared.now (given text.now params.now))) }
{
    let outputs = Outputs {
        result: text.copy()?,
        params: params.copy()?,
    };
    match phase {
        Phase::Succeeded => {
            let ending = completed_from(declared, params, outputs)?;
            Ok(succeeded_node(place, Kind::Pod, note, ending))
        }
        _ => Ok(node(place, Kind::Pod, phase, note, outputs)),
    }
}

/// The node of steps or of a DAG of this phase, whose last scope this is.
pub fn computed_node(
    place: Place,
    kind: Kind,
    phase: Phase,
    scope: &Scope,
    declared: &OutputDecls,
) -> Result<Node, Memory>
    ensures { IfOk result (λ node. node ≡ outs.ended_node place kind phase notes.None lines.no_outputs
        (outs.computed scope.now declared.now)) }
{
    match phase {
        Phase::Succeeded => {
            let ending = computed(scope, declared)?;
            Ok(succeeded_node(place, kind, Note::None, ending))
        }
        _ => Ok(bare(place, kind, phase, Note::None)),
    }
}

/// The node of a suspend template that is over.
pub fn suspended_node(place: Place, declared: &OutputDecls) -> Result<Node, Memory>
    ensures { IfOk result (λ node. node ≡ outs.ended_node place kinds.Suspend phases.Succeeded notes.None
        lines.no_outputs (outs.defaulted declared.now)) }
{
    let ending = defaulted(declared)?;
    Ok(succeeded_node(place, Kind::Suspend, Note::None, ending))
}
