//! What a resubmission carries over.

ghost use Rattle.std.specs.Prelude.{◌≡◌, IfOk};
ghost use Rattle.std.specs.List.{filter_map};
ghost use Rattle.recorded.specs.Ends as ends;
ghost use Rattle.tree_types.specs.declared.fact.Fact.TheVariants as fact;
ghost use Rattle.law.specs.Contents.{flow};
ghost use Rattle.law.specs.Justified as law;
ghost use Rattle.askings.specs.Ends as askings;

use base_types::{Memory, Shared, TryCopy};
use meaning::Place;
use recorded::{Ended, Recorded};
use shared_facts::SharedFacts;
use std::alloc::Global;
use tree_incr::TreeState;
use tree_types::{Fact, Facts, Kind, Node, Note, Outcome, Phase};

fn is_hit(note: &Note) -> bool
    ensures { result ≡ askings.is_hit note.now }
{
    matches!(note, Note::Hit(_, _))
}

fn has_succeeded(node: &Node) -> bool
    ensures { result ≡ law.has_succeeded node.now }
{
    node.phase == Phase::Succeeded && !is_hit(&node.note)
}

fn outcome_of(alloc: Global, ended: &Ended<'_>) -> Result<Shared<Outcome>, Memory>
    ensures { IfOk result (λ outcome. outcome ≡ ends.outcome_of ended.now) }
{
    let outcome = Outcome {
        phase: ended.phase,
        result: ended.result.copy()?,
        params: ended.params.copy()?,
        transient: ended.transient,
        begin: ended.begin,
        finish: ended.finish,
    };
    Ok(Shared::new(alloc, outcome)?)
}

// The fact that carries over how the pod of a node ended.
fn carried_fact(node: &Node, ended: &Ended<'_>) -> Result<Fact, Memory>
    ensures { IfOk result
        (λ carried. carried ≡ fact.Carried node.now.path (ends.outcome_of ended.now)) }
{
    let outcome = outcome_of(node.name.allocator(), ended)?;
    Ok(Fact::Carried(node.path.copy()?, outcome))
}

// The outcome of a pod's node that Succeeded.
fn carried_pod(facts: &SharedFacts, node: &Node) -> Result<Option<Fact>, Memory>
    ensures { IfOk result (λ fact. fact ≡ law.carried_pod facts.now node.now Kind.Pod) }
{
    let place = Place {
        sels: node.path.sels.copy()?,
        name: node.name.copy()?,
        depth: node.depth,
    };
    match facts.outcome(&place) {
        None => Ok(None),
        Some(ended) => {
            if has_succeeded(node) {
                Ok(Some(carried_fact(node, &ended)?))
            } else {
                Ok(None)
            }
        }
    }
}

fn carried_by(facts: &SharedFacts, node: &Node) -> Result<Option<Fact>, Memory>
    ensures { IfOk result (λ fact. fact ≡ law.carried_by facts.now node.now) }
{
    match node.kind {
        Kind::Pod => carried_pod(facts, node),
        _ => Ok(None),
    }
}

// What these nodes carry over.
fn carried_in(state: &TreeState, nodes: &[Node]) -> Result<Facts, Memory>
    ensures { IfOk result
        (λ facts. facts ≡ filter_map (law.carried_by state.now.facts) nodes.now) }
{
    let mut facts = Facts::new(state.manifest().name.allocator());
    for node in nodes {
        if let Some(fact) = carried_by(state.facts(), node)? {
            facts.push(fact)?;
        }
    }
    Ok(facts)
}

/// What a resubmission carries over, in tree order; without `memoized` nothing.
pub fn carried(state: &TreeState, memoized: bool) -> Result<Facts, Memory>
    ensures { IfOk result
        (λ facts. facts ≡ law.carried_facts memoized (flow state.now.manifest state.now.facts)) }
{
    if memoized {
        let told = state.tell()?;
        carried_in(state, told.tree.nodes.as_slice())
    } else {
        Ok(Facts::new(state.manifest().name.allocator()))
    }
}
