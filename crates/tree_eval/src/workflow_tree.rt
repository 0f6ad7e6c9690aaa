//! The tree of a workflow, kept as it was made.

ghost use Rattle.std.specs.Prelude.{◌≡◌, ◌≢◌, ◌<◌, ◌≤◌, ◌^◌, ◌∷◌, Err, IfOk, IfSome, MatchOption, length, option_copied, option_map};
ghost use Rattle.std.specs.List.{find, filter};
ghost use Rattle.meaning.specs.Trees.{nodes_in, wants_in, beginnings_in};
ghost use Rattle.tree_state.specs.declared.refused.TreeRefused.TheVariants as refused;
ghost use Rattle.tree_state.specs.Asking.{is_of, first};
ghost use Rattle.tree_state.specs.Finding.{passes, locks_in, pods_in, found_from, next_tick, IsFound};
ghost use Rattle.tree_types.specs.declared.path.Sel.TheVariants.{Main, Exit};
ghost use Rattle.tree_types.specs.declared.phase.Phase.TheVariants.{Running};
ghost use Rattle.locality.specs.Answered.{SameBut};
ghost use Rattle.wf_manifest.specs.Valid.{Valid};
ghost use Rattle.tree_walk.specs.Index.{IsReady};
ghost use Rattle.tree_eval.specs.After.{IsMeant, RunsOn};
ghost use Rattle.tree_eval.specs.Pods.{NoneAmong};
ghost use Rattle.tree_eval.specs.Inside.Stages.{GivesWhole};
ghost use Rattle.tree_eval.specs.Told.{evaluated};
ghost use Rattle.tree_eval.specs.Whole.{whole, meant_whole, lines_of};

use crate::stages::{awaited, pending, running, waiting};
use crate::tops::Tops;
use crate::{Evaluated, Recorded, TreeRefused};
use base_types::Memory;
use base_types::limits::MOST_NODES;
use hooks_exit::law::phase_is_meant;
use std::alloc::Global;
use std::marker::Model;
use tree_change::{changed_top, split};
use tree_state::{Clue, NodeTest, Shared, WantKind, WantTest};
use tree_types::{Node, Note, Path, Phase, Sel, Want, Wants};
use tree_walk::Positions;
use wf_manifest::Manifest;

/// The tree of a workflow as its calls made it, and the phase of the workflow. Contracts see what they
/// made and the phase.
pub struct WorkflowTree {
    pub(crate) tops: Tops,
    pub(crate) phase: Phase,
}

// Written out, so that proofs about code that drops a tree see one call.
impl Drop for WorkflowTree {
    fn drop(self) {
        let WorkflowTree { tops: _, phase: _ } = self;
    }
}

impl Model for WorkflowTree {
    ghost use Rattle.tree_eval.specs.Whole.{Whole};
    ghost use Rattle.tree_eval.specs.WholeCode.{whole_code};

    ghost Value = { Whole };

    ghost coded = { whole_code };

    ghost view = { λ a. record { main = a.tops.main; exit = a.tops.exit; phase = a.phase } };
}

impl WorkflowTree {
    /// The tree of a manifest over what is recorded of it.
    ///
    /// No more nodes are made than a tree may have, however many the manifest means.
    pub fn of<R: Recorded>(manifest: &Manifest, recorded: &R) -> Result<WorkflowTree, TreeRefused>
        requires valid { Valid manifest.now }
        ensures { result ≢ Err refused.Memory
            → result ≡ meant_whole manifest.now (R.answers recorded.now) }
    {
        if !recorded.started() {
            let nothing = Wants::new(manifest.name.allocator());
            return Ok(pending(manifest, Note::None, nothing)?);
        }
        match awaited(manifest, recorded)? {
            Some(lock) => Ok(waiting(manifest, lock)?),
            None => running(manifest, recorded),
        }
    }

    /// The tree once one fact more is recorded, where no more changes than the nodes on the way to the fact: `changed` is the
    /// path of the fact, `before` what was recorded without it, and all other nodes are shared.
    ///
    /// There is none where more may change: where the workflow did not run, where the fact is none of the entrypoint, where
    /// the exit handler runs, and where something waits for what the fact ends.
    pub fn along<R: Recorded>(
        &self,
        manifest: &Manifest,
        positions: &Positions,
        recorded: &R,
        before: &R,
        changed: &[Sel],
    ) -> Result<Option<WorkflowTree>, Memory>
        requires ready { IsReady manifest.now positions.now }
        requires same { SameBut (R.answers recorded.now) (R.answers before.now) changed.now }
        requires tree { self.now ≡ whole manifest.now (R.answers before.now) }
        ensures { RunsOn manifest.now (R.answers recorded.now) result }
    {
        let Some((Sel::Main, rest)) = self.below(changed) else {
            return Ok(None);
        };
        if self.tops.exit.is_some() {
            return Ok(None);
        }
        let old = self.tops.main.state();
        let entry = &manifest.entrypoint;
        let Some(main) = changed_top(manifest, positions, recorded, old, entry, rest)? else {
            return Ok(None);
        };
        if main.is_finished() {
            return Ok(None);
        }
        if main.count() > MOST_NODES {
            return Ok(None);
        }
        let main = Shared::new(main)?;
        Ok(Some(WorkflowTree {
            tops: Tops { main, exit: None },
            phase: Phase::Running,
        }))
    }

    /// The tree once one fact more is recorded, whatever changes with it: what is on no way to the fact, and does not begin
    /// with it, is shared. There is none where the tree has to be made anew: where the workflow did not run, and where the
    /// fact is of the workflow itself.
    pub fn after<R: Recorded>(
        &self,
        manifest: &Manifest,
        positions: &Positions,
        recorded: &R,
        before: &R,
        changed: &[Sel],
    ) -> Result<Option<WorkflowTree>, TreeRefused>
        requires ready { IsReady manifest.now positions.now }
        requires same { SameBut (R.answers recorded.now) (R.answers before.now) changed.now }
        requires tree { self.now ≡ whole manifest.now (R.answers before.now) }
        ensures { IsMeant manifest.now (R.answers recorded.now) result }
    {
        match self.below(changed) {
            Some((Sel::Main, rest)) => {
                let tree = self.again(manifest, positions, recorded, before, rest)?;
                Ok(Some(tree))
            }
            Some((Sel::Exit, rest)) => {
                let tree = self.again_behind(manifest, positions, recorded, before, rest)?;
                Ok(Some(tree))
            }
            _ => Ok(None),
        }
    }

    // The first selector of a path, and what is behind it, where the workflow runs.
    fn below<'a>(&self, changed: &'a [Sel]) -> Option<(Sel, &'a [Sel])>
        ensures { IfSome result (λ parts.
            (changed.now ≡ parts.0 ∷ parts.1.now) × (self.now.phase ≡ Running)) }
    {
        let Phase::Running = self.phase else {
            return None;
        };
        split(changed)
    }

    // What `after` gives below the entrypoint.
    fn again<R: Recorded>(
        &self,
        manifest: &Manifest,
        positions: &Positions,
        recorded: &R,
        before: &R,
        rest: &[Sel],
    ) -> Result<WorkflowTree, TreeRefused>
        requires ready { IsReady manifest.now positions.now }
        requires same { SameBut (R.answers recorded.now) (R.answers before.now) (Main ∷ rest.now) }
        requires tree { self.now ≡ whole manifest.now (R.answers before.now) }
        requires runs { self.now.phase ≡ Running }
        ensures { GivesWhole result manifest.now (R.answers recorded.now) }
    {
        phase_is_meant();
        let tops = self
            .tops
            .again(manifest, positions, recorded, before, rest)?;
        let phase = tops.phase();
        Ok(WorkflowTree { tops, phase })
    }

    // What `after` gives below the exit handler.
    fn again_behind<R: Recorded>(
        &self,
        manifest: &Manifest,
        positions: &Positions,
        recorded: &R,
        before: &R,
        rest: &[Sel],
    ) -> Result<WorkflowTree, TreeRefused>
        requires ready { IsReady manifest.now positions.now }
        requires same { SameBut (R.answers recorded.now) (R.answers before.now) (Exit ∷ rest.now) }
        requires tree { self.now ≡ whole manifest.now (R.answers before.now) }
        requires runs { self.now.phase ≡ Running }
        ensures { GivesWhole result manifest.now (R.answers recorded.now) }
    {
        phase_is_meant();
        let tops = self
            .tops
            .again_behind(manifest, positions, recorded, before, rest)?;
        let phase = tops.phase();
        Ok(WorkflowTree { tops, phase })
    }

    /// The phase of the workflow.
    pub fn phase(&self) -> Phase
        ensures { result ≡ self.now.phase }
    {
        self.phase
    }

    /// How many nodes the tree has.
    pub fn count(&self) -> usize
        ensures { result ≡ length (nodes_in (lines_of self.now)) }
    {
        self.tops.count()
    }

    /// How many pods are asked for, where that can be counted.
    pub fn pods(&self) -> Option<usize>
        ensures { MatchOption result (2 ^ 64 ≤ length (pods_in (wants_in (lines_of self.now))))
            (λ count. count ≡ length (pods_in (wants_in (lines_of self.now)))) }
    {
        self.tops.pods()
    }

    /// How many locks are asked for, where that can be counted.
    pub fn locks(&self) -> Option<usize>
        ensures { MatchOption result (2 ^ 64 ≤ length (locks_in (wants_in (lines_of self.now))))
            (λ count. count ≡ length (locks_in (wants_in (lines_of self.now)))) }
    {
        self.tops.locks()
    }

    /// The first want of a kind, in tree order, found without a walk over what asks for none of the kind.
    pub fn first_want(&self, kind: WantKind) -> Option<&Want>
        ensures { option_copied result ≡ find (is_of kind) (wants_in (lines_of self.now)) }
    {
        self.tops.first_want(kind)
    }

    /// The first task that may begin, in tree order.
    pub fn first_beginning(&self) -> Option<&Path>
        ensures { option_copied result ≡ first (beginnings_in (lines_of self.now)) }
    {
        self.tops.first_beginning()
    }

    /// The first want of a kind, in tree order, that passes a test. What asks for none of the kind is not walked over.
    pub fn find_want<T: WantTest>(&self, kind: WantKind, test: &T) -> Option<&Want>
        ensures { option_copied result
            ≡ find (passes kind (T.accepts test.now)) (wants_in (lines_of self.now)) }
    {
        self.tops.find_want(kind, test)
    }

    /// All that is asked for of a kind, in tree order. What asks for none of the kind is not walked over.
    pub fn wants_of(&self, alloc: Global, kind: WantKind) -> Result<Wants, Memory>
        ensures { IfOk result (λ all. all ≡ filter (is_of kind) (wants_in (lines_of self.now))) }
    {
        let mut all = Wants::new(alloc);
        self.tops.add_wants(kind, &mut all)?;
        Ok(all)
    }

    /// The first pod that is asked for and passes a test, in tree order, where none of so many from the first does; and how many
    /// from the first are known not to: where it stands, if that can be counted.
    pub fn find_pod_behind<T: WantTest>(&self, known: usize, test: &T) -> Option<(usize, &Want)>
        ensures exact { length (pods_in (wants_in (lines_of self.now))) < 2 ^ 64
            → option_map (λ f. (f.0, f.1.now)) result
            ≡ found_from known (T.accepts test.now) (pods_in (wants_in (lines_of self.now))) }
        ensures first { NoneAmong known (T.accepts test.now) (pods_in (wants_in (lines_of self.now)))
            → option_map (λ f. f.1.now) result
            ≡ find (T.accepts test.now) (pods_in (wants_in (lines_of self.now))) }
        ensures known { NoneAmong known (T.accepts test.now) (pods_in (wants_in (lines_of self.now)))
            → IfSome result (λ f.
            NoneAmong f.0 (T.accepts test.now) (pods_in (wants_in (lines_of self.now)))) }
    {
        self.tops.find_pod_behind(known, test)
    }

    /// The first node, in tree order, that passes a test.
    pub fn find_node<T: NodeTest>(&self, test: &T) -> Option<&Node>
        ensures { option_copied result ≡ find (T.accepts test.now) (nodes_in (lines_of self.now)) }
    {
        self.tops.find_node(test)
    }

    /// A node that a clue leads to, by the way that paths and names show. What is found fits the clue; where none is found,
    /// there may be one all the same.
    pub fn on_way(&self, clue: &Clue<'_>) -> Option<&Node>
        ensures { IfSome result (λ node. IsFound clue.now (lines_of self.now) node.now) }
    {
        self.tops.on_way(clue)
    }

    /// The least tick above a clock at which a timer is due that is asked for.
    pub fn next_timer(&self, clock: u64) -> Option<u64>
        ensures { result ≡ next_tick clock (wants_in (lines_of self.now)) }
    {
        self.tops.next_timer(clock)
    }

    /// The tree, what it asks for, and the tasks that may begin, each as a list in tree order.
    pub fn tell(&self, alloc: Global) -> Result<Evaluated, Memory>
        ensures { IfOk result (λ whole. whole ≡ evaluated self.now) }
    {
        let told = self.tops.tell(alloc)?;
        Ok(Evaluated::of(told, self.phase))
    }
}
