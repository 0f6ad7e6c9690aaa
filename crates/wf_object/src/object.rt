//! Workflows, as the store keeps them.

ghost use Rattle.std.specs.Prelude.{◌≡◌, [], ◌++◌, false, IfOk};
ghost use Rattle.tree_types.specs.Journals.{knows};
ghost use Rattle.wf_manifest.specs.Valid.{Valid as IsValid};
ghost use Rattle.meaning.specs.Answers.{answers};
ghost use Rattle.meaning.specs.Trees as trees;
ghost use Rattle.law.specs.Contents.{flow};
ghost use Rattle.law.specs.Justified.{carried_facts, renamed};
ghost use Rattle.law.specs.Due.{is_over};
ghost use Rattle.wf_object.specs.Added.{AddGives};

use crate::carrying::carried;
use crate::closing::{close, with_carried, with_facts};
use base_types::{Memory, Text, TryCopy};
use shared_facts::SharedFacts;
use std::marker::Model;
use std::sync::Arc;
use tree_incr::{TreeRefused, TreeState};
use tree_types::{Fact, Facts, Phase, fulfilled};
use wf_check::Valid;
use wf_manifest::Manifest;

/// A workflow: its manifest, its journal, and the tree of the two. Contracts see it as the law has it.
///
/// A fact is added to a copy; copies share what they have in common.
pub struct WfObject {
    // The manifest once more, with what a resubmission needs of it.
    valid: Arc<Valid>,
    state: TreeState,
}

// Written out, so that proofs about code that drops a workflow see one call.
impl Drop for WfObject {
    fn drop(self) {
        let WfObject { valid: _, state: _ } = self;
    }
}

impl Model for WfObject {
    ghost use Rattle.law.specs.Contents.{Flow};
    ghost use Rattle.wf_object.specs.ContentCode.{flow_code};

    ghost Value = { Flow };

    ghost coded = { flow_code };

    ghost use Rattle.wf_object.specs.Inside.Objects.{flow_of, IsKept};

    ghost view = { flow_of };

    ghost invariant = { IsKept };
}

impl WfObject {
    /// A workflow of which nothing is recorded yet.
    pub fn new(valid: Valid) -> Result<WfObject, Memory>
        requires { IsValid valid }
        ensures { IfOk result (λ object. object ≡ flow valid []) }
    {
        let alloc = valid.manifest().name.allocator();
        let state = TreeState::new(valid.copy()?)?;
        Ok(WfObject {
            valid: Arc::new(alloc, valid)?,
            state,
        })
    }

    /// What a resubmission makes of the workflow, and the facts that it carries over: the manifest under another name and
    /// another creation, and if it is memoized, the outcomes of the pods that Succeeded.
    #[tactic(auto, using(crate::proofs::Renaming::valid_renamed, crate::proofs::Unstarted::carried_unstarted))]
    pub fn resubmitted(
        &self,
        name: Text,
        created: i64,
        memoized: bool,
    ) -> Result<(WfObject, Facts), Memory>
        ensures carried { IfOk result (λ made. made.1 ≡ carried_facts memoized self.now) }
        ensures object { IfOk result
            (λ made. made.0 ≡ flow (renamed self.now.manifest name created) made.1) }
    {
        let facts = carried(&self.state, memoized)?;
        let object = WfObject::new(self.valid.renamed(name, created)?)?;
        let state = with_carried(&object.state, facts.as_slice())?;
        Ok((object.over(state)?, facts))
    }

    /// The workflow with one fact more, and with the beginnings that close its journal then; and all that is written so.
    ///
    /// TooLarge exactly where a tree on the way has more than 10,000 nodes.
    pub fn add(&self, fact: Fact) -> Result<(WfObject, Facts), TreeRefused>
        requires { knows self.now.journal fact ≡ false }
        ensures { AddGives self.now fact result }
    {
        let mut facts = Facts::with_capacity(self.valid.manifest().name.allocator(), 1)?;
        facts.push(fact.copy()?)?;
        let state = self.state.add(fact)?;
        let (state, facts) = close(state, facts)?;
        Ok((self.over(state)?, facts))
    }

    // The workflow with these facts behind its own.
    pub(crate) fn with(&self, facts: &Facts) -> Result<WfObject, TreeRefused>
        ensures { IfOk result (λ object. object
            ≡ flow self.now.manifest (self.now.journal ++ facts.now)) }
    {
        let state = with_facts(&self.state, facts.as_slice())?;
        Ok(self.over(state)?)
    }

    // The same manifest with this tree.
    fn over(&self, state: TreeState) -> Result<WfObject, Memory>
        requires { state.manifest ≡ self.now.manifest }
        ensures { IfOk result (λ object. object ≡ flow state.manifest state.facts) }
    {
        Ok(WfObject {
            valid: Arc::try_clone(&self.valid)?,
            state,
        })
    }

    /// The manifest and the journal with their tree, of which it can be asked.
    pub fn state(&self) -> &TreeState
        ensures { result.now ≡ record { manifest = self.now.manifest; facts = self.now.journal } }
    {
        &self.state
    }

    /// The manifest.
    pub fn manifest(&self) -> &Manifest
        ensures same { result.now ≡ self.now.manifest }
        ensures valid { IsValid result.now }
    {
        self.state.manifest()
    }

    /// The journal.
    pub fn journal(&self) -> &SharedFacts
        ensures { result.now ≡ self.now.journal }
    {
        self.state.facts()
    }

    /// The phase of the workflow.
    pub fn phase(&self) -> Phase
        ensures { result ≡ trees.phase self.now.manifest (answers self.now.journal) }
    {
        self.state.phase()
    }

    /// Whether the workflow is over.
    pub fn is_over(&self) -> bool
        ensures { result ≡ is_over self.now }
    {
        fulfilled(self.phase())
    }

    /// Its tree is that of its manifest and its journal. It does nothing.
    pub fn keeps_its_tree(&self)
        ensures { self.now ≡ flow self.now.manifest self.now.journal }
    {
        let _ = &self.state;
    }
}

impl TryCopy for WfObject {
    fn copy(&self) -> Result<WfObject, Memory> {
        Ok(WfObject {
            valid: Arc::try_clone(&self.valid)?,
            state: self.state.copy()?,
        })
    }
}
