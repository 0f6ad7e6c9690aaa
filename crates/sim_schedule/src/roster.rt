//! The jobs of the next round, kept while the history goes on.

ghost use Rattle.std.specs.Prelude.{◌≡◌, ◌≤◌, [], length, IfOk, OnOk};
ghost use Rattle.law.specs.Justified.{IsLawful};
ghost use Rattle.wf_object.specs.Documents.{law_of};
ghost use Rattle.sim_schedule.specs.Inside.Jobs.{KnowsEnds};
ghost use Rattle.sim_schedule.specs.Inside.Restings.{RestsNone};
ghost use Rattle.sim_schedule.specs.Inside.Rosters.{IsOf, Follows};

use crate::jobs::{Jobs, add_runner_jobs, add_worker_jobs, unfinished_jobs};
use crate::resting::Resting;
use base_types::{List, Memory};
use io_edge::Outage;
use object_store::Store;
use rest_laws::laws::pods_wait;
use run_laws::laws::finished_pods_stay;
use std::alloc::Global;
use std::mem;
use wf_bundle::Document;
use wf_object::WfContent;

/// The jobs of a round that begins at some moment. The history is walked once: later only its new entries are looked at, and
/// the pods that had not ended.
pub(crate) struct Roster {
    /// A worker's for each workflow, in order of submission.
    pub(crate) workflows: Jobs,
    /// A runner's for each pod that had not ended, in order of creation.
    pub(crate) pods: Jobs,
    /// The workflows at rest, of which the jobs are passed.
    pub(crate) resting: Resting,
    // How many entries there were.
    seen: usize,
}

// Written out, so that proofs about code that drops a roster see one call.
impl Drop for Roster {
    fn drop(self) {
        let Roster {
            workflows: _,
            pods: _,
            resting: _,
            seen: _,
        } = self;
    }
}

impl Roster {
    fn new(alloc: Global) -> Roster
        ensures workflows { result.workflows ≡ [] }
        ensures pods { result.pods ≡ [] }
        ensures resting { RestsNone result.resting }
    {
        Roster {
            workflows: List::new(alloc),
            pods: List::new(alloc),
            resting: Resting::new(alloc),
            seen: 0,
        }
    }

    /// The jobs of a round that begins now.
    pub(crate) fn of<O: Outage>(
        alloc: Global,
        store: &Store<WfContent, O>,
        document: &Document,
    ) -> Result<Roster, Memory>
        ensures jobs { IfOk result (λ roster. IsOf store.now.history roster) }
        ensures ends { IfOk result (λ roster. KnowsEnds (law_of document.now) store.now.history roster.pods) }
        ensures resting { IfOk result (λ roster. RestsNone roster.resting) }
    {
        let entries = store.entries().as_slice();
        let mut roster = Roster::new(alloc);
        add_worker_jobs(&mut roster.workflows, entries)?;
        add_runner_jobs(&mut roster.pods, store, document, entries)?;
        roster.seen = entries.len();
        Ok(roster)
    }

    /// Brings them up to now.
    pub(crate) fn follow<O: Outage>(
        &mut self,
        alloc: Global,
        store: &Store<WfContent, O>,
        document: &Document,
    ) -> Result<(), Memory>
        requires { Follows (law_of document.now) store.now.history self.old }
        ensures now { OnOk result (IsLawful (law_of document.now) store.now.history →
            IsOf store.now.history self.new) }
        ensures seen { OnOk result (self.new.seen ≡ length store.now.history.events) }
        ensures ends { OnOk result (IsLawful (law_of document.now) store.now.history →
            KnowsEnds (law_of document.now) store.now.history self.new.pods) }
        ensures resting { OnOk result (self.new.resting ≡ self.old.resting) }
    {
        finished_pods_stay();
        pods_wait();
        let entries = store.entries().as_slice();
        let new = &entries[self.seen..];
        add_worker_jobs(&mut self.workflows, new)?;
        let pods = mem::replace(&mut self.pods, List::new(alloc));
        self.pods = unfinished_jobs(alloc, store, pods)?;
        add_runner_jobs(&mut self.pods, store, document, new)?;
        self.seen = entries.len();
        Ok(())
    }
}
