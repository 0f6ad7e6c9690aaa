//! The workflows at rest, of which a round passes the jobs.

ghost use Rattle.std.specs.Prelude.{◌≡◌, ◌≤◌, [], ◌∷◌, length, map, OnOk, IsTrue};
ghost use Rattle.std.specs.List.{list_any};
ghost use Rattle.lawful.specs.Manifests.{HasValidWorkflows};
ghost use Rattle.law.specs.Documents.{Document as LawDocument};
ghost use Rattle.law.specs.Justified.{IsLawful};
ghost use Rattle.run_laws.specs.Whole.{Ran, went};
ghost use Rattle.rest_laws.specs.Rest.{HoldsNone, falls_between};
ghost use Rattle.wf_object.specs.Documents.{law_of, command_of};
ghost use Rattle.sim_schedule.specs.Inside.Jobs.{given, KnowsEnd};
ghost use Rattle.sim_schedule.specs.Inside.Restings.{RestsNone, Wakes, WakesAll, MovesOn, Notes, KnowsRest, KnowsNow};

use crate::due::{command_tick, next_timer};
use crate::jobs::{Job, is_ahead};
use base_types::{Memory, Text, TryCopy};
use indexmap::IndexSet;
use io_edge::Outage;
use item_reader::Command;
use object_store::Store;
use rest_laws::laws::{pods_wait, workflows_rest};
use std::alloc::Global;
use tree_types::{Entry, Key};
use wf_bundle::Document;
use wf_object::WfContent;

/// The workflows that rest: as long as one of them holds no lock, its job would find nothing to do. It is brought up to the history
/// by its new entries alone.
#[derive(Drop)]
pub(crate) struct Resting {
    // Those that rest until the clock moves.
    names: IndexSet<Text>,
    // Those that no timer wakes.
    asleep: IndexSet<Text>,
    // How many entries there were, and where the clock stood.
    seen: usize,
    clock: u64,
}

// Whether the tick of a command is passed between two moments of the clock.
fn any_falls(then: u64, now: u64, commands: &[Command]) -> bool
    ensures { result ≡ list_any (λ c. falls_between then now (command_of c)) commands.now }
{
    commands.iter().any(|command| {
        let tick = command_tick(command);
        then < tick && tick <= now
    })
}

// Whether no lock is held by a workflow.
fn holds_none<O: Outage>(store: &Store<WfContent, O>, workflow: &Text) -> bool
    ensures { IsTrue result → HoldsNone store.now.history workflow.now }
{
    match store.look(&Key::Locks) {
        None => false,
        Some(content) => match content.locks() {
            None => false,
            Some(book) => !book.may_hold(workflow),
        },
    }
}

impl Resting {
    /// None of them.
    pub(crate) fn new(alloc: Global) -> Resting
        ensures { RestsNone result }
    {
        Resting {
            names: IndexSet::new(alloc),
            asleep: IndexSet::new(alloc),
            seen: 0,
            clock: 0,
        }
    }

    // The workflow of a name rests no more.
    fn drop_one(&mut self, workflow: &Text)
        ensures { Wakes workflow.now self.old self.new }
    {
        self.names.swap_remove(workflow);
        self.asleep.swap_remove(workflow);
    }

    // What an entry concerns rests no more.
    fn wake(&mut self, entry: &Entry)
        ensures { WakesAll (entry.now ∷ []) self.old self.new }
    {
        match entry {
            Entry::Submit {
                workflow,
                old: _,
                facts: _,
            } => self.drop_one(workflow),
            Entry::Write {
                workflow,
                version: _,
                facts: _,
            } => self.drop_one(workflow),
            Entry::Create {
                workflow,
                node: _,
                path: _,
                begin: _,
            } => self.drop_one(workflow),
            Entry::Finish {
                workflow,
                node: _,
                outcome: _,
            } => self.drop_one(workflow),
            _ => {}
        }
    }

    // What these entries concern rests no more.
    fn wake_all(&mut self, entries: &[Entry])
        ensures { WakesAll entries.now self.old self.new }
    {
        for entry in entries {
            self.wake(entry);
        }
    }

    // What the clock makes due wakes those that rest until it moves, and a command wakes all.
    fn move_on(&mut self, clock: u64, commands: &[Command])
        ensures { MovesOn clock (map command_of commands.now) self.old self.new }
    {
        if clock == self.clock {
            return;
        }
        self.names.clear();
        if any_falls(self.clock, clock, commands) {
            self.asleep.clear();
        }
        self.clock = clock;
    }

    /// Brings them up to now.
    pub(crate) fn follow<O: Outage>(&mut self, store: &Store<WfContent, O>, document: &Document)
        requires { self.old.seen ≤ length store.now.history.events }
        ensures { KnowsRest (law_of document.now) store.now.history self.old →
            KnowsNow (law_of document.now) store.now.history self.new }
    {
        workflows_rest();
        let entries = store.entries().as_slice();
        self.wake_all(&entries[self.seen..]);
        self.move_on(store.clock(), document.commands.as_slice());
        self.seen = entries.len();
    }

    /// Whether a job would find nothing to do.
    pub(crate) fn passes<O: Outage>(&self, store: &Store<WfContent, O>, job: &Job) -> bool
        ensures { IsTrue result → (D : LawDocument) → HasValidWorkflows D → IsLawful D store.now.history →
            KnowsNow D store.now.history self.now → KnowsEnd D store.now.history job.now →
            Ran D store.now.history (given job.now) went store.now.history }
    {
        workflows_rest();
        pods_wait();
        match job {
            Job::Workflow(workflow) => {
                (self.names.contains(workflow) || self.asleep.contains(workflow))
                    && holds_none(store, workflow)
            }
            Job::Pod(_, _, end) => is_ahead(store.clock(), *end),
        }
    }

    /// Notes that the workflow of a job rests.
    pub(crate) fn note<O: Outage>(
        &mut self,
        store: &Store<WfContent, O>,
        job: &Job,
    ) -> Result<(), Memory>
        ensures { OnOk result (Notes store.now.history (given job.now) self.old self.new) }
    {
        if let Job::Workflow(workflow) = job {
            let name = workflow.copy()?;
            if next_timer(store, workflow)?.is_some() {
                self.names.insert(name)?;
            } else {
                self.asleep.insert(name)?;
            }
        }
        Ok(())
    }
}
