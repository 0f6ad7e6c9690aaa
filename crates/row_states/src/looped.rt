//! Looped calls.

ghost use Rattle.std.specs.Prelude.{◌≡◌, map, IfOk};
ghost use Rattle.std.specs.List.{list_any, list_all};
ghost use Rattle.tree_types.specs.Phases as phases;
ghost use Rattle.meaning.specs.Lines as lines;
ghost use Rattle.meaning.specs.Calls as calls;

use crate::row;
use crate::rows::are_finished;
use base_types::{List, Memory};
use call_nodes::{bare, loop_outputs, node};
use meaning::Place;
use tree_state::{Shared, State};
use tree_types::{Kind, Node, Note, Outputs, Phase, worst};
use wf_manifest::OutputDecls;

/// The node of a looped call over its items, given what each of them made. Its template declares these outputs.
pub fn loop_state(
    place: Place,
    declared: &OutputDecls,
    states: List<Shared>,
) -> Result<State, Memory>
    ensures { IfOk result (λ s. s ≡ calls.loop_made place declared.now states) }
{
    let node = loop_node(place, declared, &states)?;
    let some = any_succeeded(&states);
    let all = all_failed(&states);
    Ok(State::of_loop(node, some, all, row(states)?))
}

fn loop_node(place: Place, declared: &OutputDecls, states: &List<Shared>) -> Result<Node, Memory>
    ensures { IfOk result (λ n.
        n ≡ calls.loop_node place declared.now states.now (lines.all_finished states.now)) }
{
    if !are_finished(states) {
        return Ok(bare(place, Kind::TaskGroup, Phase::Running, Note::None));
    }
    let items = outputs_of(states)?;
    let outputs = loop_outputs(states.allocator(), declared, items.as_slice())?;
    Ok(node(
        place,
        Kind::TaskGroup,
        worst_phase(states),
        Note::None,
        outputs,
    ))
}

fn outputs_of(states: &List<Shared>) -> Result<Vec<&Outputs>, Memory>
    ensures { IfOk result (λ items.
        map (λ o. o.now) items.items ≡ map (λ m. m.own.node.outputs) states.now) }
{
    let mut items = Vec::with_capacity(states.allocator(), states.len())?;
    for i in 0..states.len() {
        items.push(&states.get(i).state().node().outputs)?;
    }
    Ok(items)
}

fn worst_phase(states: &List<Shared>) -> Phase
    ensures { result ≡ phases.worst_of (map (λ m. m.own.node.phase) states.now) }
{
    let mut phase = Phase::Succeeded;
    let mut left = states.len();
    while left > 0 {
        left -= 1;
        phase = worst(states.get(left).state().phase(), phase);
    }
    phase
}

fn any_succeeded(states: &List<Shared>) -> bool
    ensures { result ≡ list_any (λ m. phases.is_succeeded m.own.node.phase) states.now }
{
    for i in 0..states.len() {
        if is_succeeded(states.get(i).state().phase()) {
            return true;
        }
    }
    false
}

fn all_failed(states: &List<Shared>) -> bool
    ensures { result ≡ list_all (λ m. phases.is_failed m.own.node.phase) states.now }
{
    for i in 0..states.len() {
        if !is_failed(states.get(i).state().phase()) {
            return false;
        }
    }
    true
}

fn is_succeeded(phase: Phase) -> bool
    ensures { result ≡ phases.is_succeeded phase }
{
    matches!(phase, Phase::Succeeded)
}

fn is_failed(phase: Phase) -> bool
    ensures { result ≡ phases.is_failed phase }
{
    matches!(phase, Phase::Failed)
}
