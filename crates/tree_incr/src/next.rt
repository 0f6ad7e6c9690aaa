//! The tree of a workflow, made anew or from the one before.

ghost use Rattle.std.specs.Prelude.{◌≡◌, ◌≢◌, [], Err, IfOk};
ghost use Rattle.wf_manifest.specs.Valid.{Valid};
ghost use Rattle.meaning.specs.Answers.{answers};
ghost use Rattle.locality.specs.Answered.{sels_of};
ghost use Rattle.tree_state.specs.declared.refused.TreeRefused.TheVariants as refused;
ghost use Rattle.tree_walk.specs.Index.{IsReady};
ghost use Rattle.tree_eval.specs.Whole.{whole, meant_whole};
ghost use Rattle.tree_eval.specs.After.{IsMeant, RunsOn};
ghost use Rattle.tree_incr.specs.Inside.{IsOneMore};

use base_types::{Memory, TryCopy};
use locality::facts::facts_are_local;
use shared_facts::SharedFacts;
use tree_eval::{TreeRefused, WorkflowTree};
use tree_types::{Fact, Sels};
use tree_walk::Positions;
use wf_manifest::Manifest;

/// The path at which a fact says something; a start is of no path.
pub fn path_of(fact: &Fact) -> Result<Option<Sels>, Memory>
    ensures { IfOk result (λ path. path ≡ sels_of fact.now) }
{
    match fact {
        Fact::Started => Ok(None),
        Fact::Settled(path, _) => Ok(Some(path.sels.copy()?)),
        Fact::Carried(path, _) => Ok(Some(path.sels.copy()?)),
        Fact::Granted(path) => Ok(Some(path.sels.copy()?)),
        Fact::Memo(path, _) => Ok(Some(path.sels.copy()?)),
        Fact::Armed(path, _) => Ok(Some(path.sels.copy()?)),
        Fact::Due(path) => Ok(Some(path.sels.copy()?)),
        Fact::Resumed(path) => Ok(Some(path.sels.copy()?)),
        Fact::Begun(path) => Ok(Some(path.sels.copy()?)),
    }
}

/// The tree before anything is recorded: its root alone.
pub fn unstarted_tree(manifest: &Manifest, facts: &SharedFacts) -> Result<WorkflowTree, Memory>
    requires valid { Valid manifest.now }
    requires nothing { facts.now ≡ [] }
    ensures { IfOk result (λ tree. tree ≡ whole manifest.now (answers [])) }
{
    match WorkflowTree::of(manifest, facts) {
        Ok(tree) => Ok(tree),
        Err(TreeRefused::Memory) => Err(Memory),
        Err(TreeRefused::TooLarge) => unreachable!(),
    }
}

// The tree by the one before, where no more changes than the nodes on the way to the fact.
fn along(
    manifest: &Manifest,
    positions: &Positions,
    before: &WorkflowTree,
    known: &SharedFacts,
    facts: &SharedFacts,
    changed: &Option<Sels>,
) -> Result<Option<WorkflowTree>, Memory>
    requires ready { IsReady manifest.now positions.now }
    requires tree { before.now ≡ whole manifest.now (answers known.now) }
    requires more { IsOneMore known.now facts.now changed.now }
    ensures { RunsOn manifest.now (answers facts.now) result }
{
    facts_are_local();
    match changed {
        None => Ok(None),
        Some(sels) => before.along(manifest, positions, facts, known, sels.as_slice()),
    }
}

// The tree by the one before, where it follows from it.
fn following(
    manifest: &Manifest,
    positions: &Positions,
    before: &WorkflowTree,
    known: &SharedFacts,
    facts: &SharedFacts,
    changed: &Option<Sels>,
) -> Result<Option<WorkflowTree>, TreeRefused>
    requires ready { IsReady manifest.now positions.now }
    requires tree { before.now ≡ whole manifest.now (answers known.now) }
    requires more { IsOneMore known.now facts.now changed.now }
    ensures { IsMeant manifest.now (answers facts.now) result }
{
    facts_are_local();
    match changed {
        None => Ok(None),
        Some(sels) => before.after(manifest, positions, facts, known, sels.as_slice()),
    }
}

// The tree by the one before, or made anew where it does not follow from that.
fn following_or_new(
    manifest: &Manifest,
    positions: &Positions,
    before: &WorkflowTree,
    known: &SharedFacts,
    facts: &SharedFacts,
    changed: &Option<Sels>,
) -> Result<WorkflowTree, TreeRefused>
    requires ready { IsReady manifest.now positions.now }
    requires tree { before.now ≡ whole manifest.now (answers known.now) }
    requires more { IsOneMore known.now facts.now changed.now }
    ensures { result ≢ Err refused.Memory → result ≡ meant_whole manifest.now (answers facts.now) }
{
    match following(manifest, positions, before, known, facts, changed)? {
        Some(tree) => Ok(tree),
        None => WorkflowTree::of(manifest, facts),
    }
}

/// The tree once a fact is recorded behind those that were known.
pub fn next_tree(
    manifest: &Manifest,
    positions: &Positions,
    before: &WorkflowTree,
    known: &SharedFacts,
    facts: &SharedFacts,
    changed: &Option<Sels>,
) -> Result<WorkflowTree, TreeRefused>
    requires ready { IsReady manifest.now positions.now }
    requires tree { before.now ≡ whole manifest.now (answers known.now) }
    requires more { IsOneMore known.now facts.now changed.now }
    ensures { result ≢ Err refused.Memory → result ≡ meant_whole manifest.now (answers facts.now) }
{
    match along(manifest, positions, before, known, facts, changed)? {
        Some(tree) => Ok(tree),
        None => following_or_new(manifest, positions, before, known, facts, changed),
    }
}
