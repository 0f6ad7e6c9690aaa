//! The tree of a manifest, what it asks for, and the phase of its workflow.

ghost use Rattle.std.specs.Prelude.{◌≡◌, ◌≢◌, Err};
ghost use Rattle.tree_state.specs.declared.refused.TreeRefused.TheVariants as refused;
ghost use Rattle.wf_manifest.specs.Valid.{Valid};
ghost use Rattle.tree_eval.specs.Told.{tree_of, meant, meant_tree, meant_wants};

use crate::law::lines_are_meant;
use crate::{Recorded, TreeRefused, WorkflowTree};
use base_types::List;
use tree_state::Told;
use tree_types::{Path, Phase, Tree, Wants};
use wf_manifest::Manifest;

/// A tree, what its nodes ask for, the tasks that may begin, and the phase of its workflow; each list in tree order.
#[derive(Debug, Drop)]
pub struct Evaluated {
    pub tree: Tree,
    pub wants: Wants,
    pub beginnings: List<Path>,
    pub phase: Phase,
}

impl Evaluated {
    pub(crate) fn of(told: Told, phase: Phase) -> Evaluated
        ensures { result ≡ record {
          tree = tree_of told.nodes;
          wants = told.wants;
          beginnings = told.beginnings;
          phase = phase;
        } }
    {
        Evaluated {
            tree: Tree { nodes: told.nodes },
            wants: told.wants,
            beginnings: told.beginnings,
            phase,
        }
    }
}

/// The tree of a manifest over what is recorded of it, what the tree asks for, the tasks that may begin, and the phase of
/// the workflow.
///
/// No more nodes are made than a tree may have, however many the manifest means.
pub fn evaluate<R: Recorded>(manifest: &Manifest, recorded: &R) -> Result<Evaluated, TreeRefused>
    requires valid { Valid manifest.now }
    ensures { result ≢ Err refused.Memory → result ≡ meant manifest.now (R.answers recorded.now) }
{
    lines_are_meant();
    let tree = WorkflowTree::of(manifest, recorded)?;
    Ok(tree.tell(manifest.name.allocator())?)
}

/// The tree of a manifest over what is recorded of it.
pub fn tree<R: Recorded>(manifest: &Manifest, recorded: &R) -> Result<Tree, TreeRefused>
    requires valid { Valid manifest.now }
    ensures { result ≢ Err refused.Memory
        → result ≡ meant_tree manifest.now (R.answers recorded.now) }
{
    match evaluate(manifest, recorded) {
        Ok(
            Evaluated {
                tree,
                wants: _,
                beginnings: _,
                phase: _,
            },
        ) => Ok(tree),
        Err(refused) => Err(refused),
    }
}

/// What the tree of a manifest asks for over what is recorded of it.
pub fn wants<R: Recorded>(manifest: &Manifest, recorded: &R) -> Result<Wants, TreeRefused>
    requires valid { Valid manifest.now }
    ensures { result ≢ Err refused.Memory
        → result ≡ meant_wants manifest.now (R.answers recorded.now) }
{
    match evaluate(manifest, recorded) {
        Ok(
            Evaluated {
                tree: _,
                wants,
                beginnings: _,
                phase: _,
            },
        ) => Ok(wants),
        Err(refused) => Err(refused),
    }
}
