//! A workflow with its tree.

ghost use Rattle.std.specs.Prelude.{◌≡◌, ◌≢◌, ◌++◌, ◌∷◌, [], Err, IfOk, IsTrue, length, option_copied};
ghost use Rattle.std.specs.List.{find};
ghost use Rattle.tree_types.specs.declared.fact.Fact.{Fact as Recordable};
ghost use Rattle.tree_types.specs.declared.node.Kind.TheVariants as kinds;
ghost use Rattle.tree_types.specs.declared.phase.Phase.TheVariants as phases;
ghost use Rattle.tree_types.specs.declared.want.Want.TheVariants as wanted;
ghost use Rattle.wf_manifest.specs.Valid.{Valid as IsValid};
ghost use Rattle.meaning.specs.Answers.{answers};
ghost use Rattle.meaning.specs.Trees as trees;
ghost use Rattle.tree_state.specs.declared.refused.TreeRefused.TheVariants as refused;
ghost use Rattle.tree_state.specs.Asking.{is_of, first};
ghost use Rattle.growth.specs.Growth.{Among};
ghost use Rattle.pod_laws.specs.NewPods.{pods};
ghost use Rattle.tree_eval.specs.Whole.{meant_whole};
ghost use Rattle.tree_incr.specs.Workflows.{unstarted, with_fact, added, told};
ghost use Rattle.tree_incr.specs.NewPods.{TellsNewPods};
ghost use Rattle.tree_incr.specs.NewLocks.{LastAddsNoLock};

use crate::answered::Answered;
use crate::new_locks::none_by_counts;
use crate::new_pods::{NewPods, by_counts};
use crate::next::{next_tree, path_of, unstarted_tree};
use askings::laws::waits_ask;
use base_types::{Memory, TryCopy};
use pod_laws::laws::{
    front_is_kept, names_are_kept, none_new_by_count, none_new_locks_by_count, one_new_by_count,
};
use shared_facts::SharedFacts;
use std::marker::Model;
use std::sync::Arc;
use tree_eval::law::lines_are_meant;
use tree_eval::{Evaluated, TreeRefused, WantKind, WorkflowTree};
use tree_types::{Fact, Kind, Node, Path, Phase, Sels, Want};
use tree_walk::{Positions, positions_of};
use wf_check::Valid;
use wf_manifest::Manifest;

/// A workflow: its manifest, the facts that are recorded of it, and the tree that they mean. Contracts see the manifest and
/// the facts.
///
/// A fact is added to a copy, so that older states of the workflow stay as they were. Copies share what they have in common.
pub struct TreeState {
    valid: Arc<Valid>,
    positions: Arc<Positions>,
    facts: SharedFacts,
    pub(crate) tree: Arc<WorkflowTree>,
    new_pods: NewPods,
    adds_no_lock: bool,
}

// Written out, so that proofs about code that drops a state see one call.
impl Drop for TreeState {
    fn drop(self) {
        let TreeState {
            valid: _,
            positions: _,
            facts: _,
            tree: _,
            new_pods: _,
            adds_no_lock: _,
        } = self;
    }
}

impl Model for TreeState {
    ghost use Rattle.tree_incr.specs.Workflows.{Workflow};
    ghost use Rattle.tree_incr.specs.WorkflowCode.{workflow_code};

    ghost Value = { Workflow };

    ghost coded = { workflow_code };

    ghost use Rattle.tree_incr.specs.Inside.{workflow_of, IsKept};

    ghost view = { workflow_of };

    ghost invariant = { IsKept };
}

impl TreeState {
    ghost use Rattle.tree_incr.specs.Inside.{IsTreeOf, IsOneMore, IsAnsweredBy};

    /// A workflow of which nothing is recorded yet.
    pub fn new(valid: Valid) -> Result<TreeState, Memory>
        requires { IsValid valid }
        ensures { IfOk result (λ state. state ≡ unstarted valid) }
    {
        let alloc = valid.manifest().name.allocator();
        let positions = positions_of(valid.manifest())?;
        let facts = SharedFacts::new(alloc)?;
        let tree = unstarted_tree(valid.manifest(), &facts)?;
        Ok(TreeState {
            valid: Arc::new(alloc, valid)?,
            positions: Arc::new(alloc, positions)?,
            facts,
            tree: Arc::new(alloc, tree)?,
            new_pods: NewPods::Unknown,
            adds_no_lock: false,
        })
    }

    /// The workflow with one fact more; this one stays as it is. Of two facts of one kind and path the first counts.
    ///
    /// TooLarge exactly where the tree would have more than 10,000 nodes.
    pub fn add(&self, fact: Fact) -> Result<TreeState, TreeRefused>
        ensures { result ≢ Err refused.Memory → result ≡ added self.now fact }
    {
        let changed = path_of(&fact)?;
        let answered = self.answered_by(&fact);
        let mut facts = self.facts.share()?;
        facts.add(fact)?;
        let tree = self.grown(&facts, &changed)?;
        let new_pods = self.new_pods_in(answered, &tree);
        let adds_no_lock = self.adds_no_lock_in(answered, &tree);
        Ok(self.over(facts, tree, new_pods, adds_no_lock)?)
    }

    // The tree over these facts, one more than those here.
    fn grown(
        &self,
        facts: &SharedFacts,
        changed: &Option<Sels>,
    ) -> Result<WorkflowTree, TreeRefused>
        requires { IsOneMore self.now.facts facts.now changed.now }
        ensures { result ≢ Err refused.Memory
            → result ≡ meant_whole self.now.manifest (answers facts.now) }
    {
        let manifest = self.valid.manifest();
        next_tree(
            manifest,
            &self.positions,
            &self.tree,
            &self.facts,
            facts,
            changed,
        )
    }

    // How many pods and locks a fact answers, where it answers what is asked for.
    fn answered_by(&self, fact: &Fact) -> Option<Answered>
        ensures { IsAnsweredBy self.now fact.now result }
    {
        match fact {
            Fact::Settled(path, _) => {
                if self.runs_pod(path) {
                    Some(Answered { pods: 1, locks: 0 })
                } else {
                    None
                }
            }
            Fact::Granted(_) => Some(Answered { pods: 0, locks: 1 }),
            Fact::Carried(_, _) | Fact::Begun(_) => None,
            _ => Some(Answered { pods: 0, locks: 0 }),
        }
    }

    // Whether the node of a path is a pod that runs, so that it is asked for.
    fn runs_pod(&self, path: &Path) -> bool
        ensures { IsTrue result
            → Among (wanted.Pod path.now) (pods self.now.manifest self.now.facts) }
    {
        waits_ask();
        match self.node(path.sels.as_slice()) {
            None => false,
            Some(node) => is_running_pod(node),
        }
    }

    // What is known of the pods that are asked for in the tree over one fact more, which answers so many.
    fn new_pods_in(&self, answered: Option<Answered>, tree: &WorkflowTree) -> NewPods
        ensures { (f : Recordable) → IsAnsweredBy self.now f answered
            → IsTreeOf tree.now self.now.manifest (self.now.facts ++ f ∷ [])
            → TellsNewPods result (with_fact self.now f) }
    {
        lines_are_meant();
        none_new_by_count();
        one_new_by_count();
        names_are_kept();
        front_is_kept();
        let Some(answered) = answered else {
            return NewPods::Unknown;
        };
        let Some(before) = self.tree.pods() else {
            return NewPods::Unknown;
        };
        let Some(now) = tree.pods() else {
            return NewPods::Unknown;
        };
        by_counts(answered.pods, before, now)
    }

    // Whether the tree over one fact more, which answers so many, is known to ask for no lock that is not asked for here.
    fn adds_no_lock_in(&self, answered: Option<Answered>, tree: &WorkflowTree) -> bool
        ensures { (f : Recordable) → IsAnsweredBy self.now f answered
            → IsTreeOf tree.now self.now.manifest (self.now.facts ++ f ∷ [])
            → IsTrue result → LastAddsNoLock (with_fact self.now f) }
    {
        lines_are_meant();
        none_new_locks_by_count();
        let Some(answered) = answered else {
            return false;
        };
        let Some(before) = self.tree.locks() else {
            return false;
        };
        let Some(now) = tree.locks() else {
            return false;
        };
        none_by_counts(answered.locks, before, now)
    }

    // The same manifest over other facts and their tree, and what is known of the pods and locks that are asked for.
    fn over(
        &self,
        facts: SharedFacts,
        tree: WorkflowTree,
        new_pods: NewPods,
        adds_no_lock: bool,
    ) -> Result<TreeState, Memory>
        requires tree { IsTreeOf tree self.now.manifest facts }
        requires new_pods { TellsNewPods new_pods record { manifest = self.now.manifest; facts = facts } }
        requires adds_no_lock { IsTrue adds_no_lock
            → LastAddsNoLock record { manifest = self.now.manifest; facts = facts } }
        ensures { IfOk result (λ state. state ≡ record { manifest = self.now.manifest; facts = facts }) }
    {
        let alloc = self.valid.manifest().name.allocator();
        Ok(TreeState {
            valid: Arc::try_clone(&self.valid)?,
            positions: Arc::try_clone(&self.positions)?,
            facts,
            tree: Arc::new(alloc, tree)?,
            new_pods,
            adds_no_lock,
        })
    }

    /// The manifest.
    pub fn manifest(&self) -> &Manifest
        ensures same { result.now ≡ self.now.manifest }
        ensures valid { IsValid result.now }
    {
        let _ = &self.positions;
        self.valid.manifest()
    }

    /// The facts in the order in which they were added.
    pub fn facts(&self) -> &SharedFacts
        ensures { result.now ≡ self.now.facts }
    {
        &self.facts
    }

    /// What is known of the pods that the workflow asks for since its last fact.
    pub fn new_pods(&self) -> NewPods
        ensures { TellsNewPods result self.now }
    {
        self.new_pods
    }

    /// Whether the workflow is known to ask for no lock that it did not ask for before its last fact.
    pub fn adds_no_lock(&self) -> bool
        ensures { IsTrue result → LastAddsNoLock self.now }
    {
        self.adds_no_lock
    }

    /// The phase of the workflow.
    pub fn phase(&self) -> Phase
        ensures { result ≡ trees.phase self.now.manifest (answers self.now.facts) }
    {
        self.tree.phase()
    }

    /// How many nodes the tree has.
    pub fn count(&self) -> usize
        ensures { result ≡ length (trees.tree self.now.manifest self.now.facts) }
    {
        lines_are_meant();
        self.tree.count()
    }

    /// The first want of a kind, in tree order, found without a walk over what asks for none of the kind.
    pub fn first_want(&self, kind: WantKind) -> Option<&Want>
        ensures { option_copied result
            ≡ find (is_of kind) (trees.wants self.now.manifest self.now.facts) }
    {
        lines_are_meant();
        self.tree.first_want(kind)
    }

    /// The first task that may begin, in tree order: the next whose beginning may be recorded.
    pub fn first_beginning(&self) -> Option<&Path>
        ensures { option_copied result
            ≡ first (trees.beginnings self.now.manifest self.now.facts) }
    {
        lines_are_meant();
        self.tree.first_beginning()
    }

    /// The tree, what it asks for, the tasks that may begin, and the phase; each list in tree order.
    pub fn tell(&self) -> Result<Evaluated, Memory>
        ensures { IfOk result (λ whole. whole ≡ told self.now) }
    {
        lines_are_meant();
        self.tree.tell(self.valid.manifest().name.allocator())
    }
}

fn is_running_pod(node: &Node) -> bool
    ensures { IsTrue result → (node.now.kind ≡ kinds.Pod) × (node.now.phase ≡ phases.Running) }
{
    match (node.kind, node.phase) {
        (Kind::Pod, Phase::Running) => true,
        _ => false,
    }
}

impl TryCopy for TreeState {
    fn copy(&self) -> Result<TreeState, Memory> {
        Ok(TreeState {
            valid: Arc::try_clone(&self.valid)?,
            positions: Arc::try_clone(&self.positions)?,
            facts: self.facts.share()?,
            tree: Arc::try_clone(&self.tree)?,
            new_pods: self.new_pods,
            adds_no_lock: self.adds_no_lock,
        })
    }
}
