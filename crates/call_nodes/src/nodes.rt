//! Nodes of places.

ghost use Rattle.std.specs.Prelude.{◌≡◌};
ghost use Rattle.meaning.specs.Lines as lines;
ghost use Rattle.meaning.specs.Steps as steps;
ghost use Rattle.meaning.specs.Calls as calls;

use meaning::Place;
use std::alloc::Global;
use tree_types::{Kind, Node, Note, Outputs, Params, Path, Phase};
use wf_manifest::{Body, ContinueOn, Template};

pub(crate) fn no_outputs(alloc: Global) -> Outputs
    ensures { result ≡ lines.no_outputs }
{
    Outputs {
        result: None,
        params: Params::new(alloc),
    }
}

/// The node of a place.
pub fn node(place: Place, kind: Kind, phase: Phase, note: Note, outputs: Outputs) -> Node
    ensures { result ≡ lines.node place kind phase note outputs }
{
    Node {
        path: Path { sels: place.sels },
        name: place.name,
        kind,
        phase,
        note,
        outputs,
        depth: place.depth,
    }
}

/// A node without outputs.
pub fn bare(place: Place, kind: Kind, phase: Phase, note: Note) -> Node
    ensures { result ≡ lines.node place kind phase note lines.no_outputs }
{
    let alloc = place.name.allocator();
    node(place, kind, phase, note, no_outputs(alloc))
}

/// The phase of a member as its group, or its DAG, sees it (field reference, `ContinueOn`).
pub fn covered(on: &Option<ContinueOn>, phase: Phase) -> Phase
    ensures { result ≡ steps.covered on.now phase }
{
    match phase {
        Phase::Failed => match on {
            Some(c) if c.failed => Phase::Succeeded,
            _ => Phase::Failed,
        },
        Phase::Error => match on {
            Some(c) if c.error => Phase::Succeeded,
            _ => Phase::Error,
        },
        Phase::Skipped => Phase::Succeeded,
        _ => phase,
    }
}

/// The kind of a template's nodes.
pub fn kind_of(template: &Template) -> Kind
    ensures { result ≡ calls.kind_of template.now }
{
    match (&template.body, &template.retry) {
        (Body::Pod, None) => Kind::Pod,
        (Body::Pod, Some(_)) => Kind::Retry,
        (Body::Steps(_), _) => Kind::Steps,
        (Body::Dag(_), _) => Kind::DAG,
        (Body::Suspend(_), _) => Kind::Suspend,
    }
}
