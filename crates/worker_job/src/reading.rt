//! A worker's views with the workflow among them, and what is asked of them.

ghost use Rattle.std.specs.Prelude.{◌≡◌, [], Some, None, IfOk, option_copied, option_map, is_some, map};
ghost use Rattle.tree_types.specs.declared.fact.Fact.TheVariants as fact;
ghost use Rattle.tree_types.specs.declared.entry.Key.TheVariants as of_key;
ghost use Rattle.std.specs.List.{list_any};
ghost use Rattle.meaning.specs.Answers.{path};
ghost use Rattle.law.specs.Justified as justified;
ghost use Rattle.law.specs.Due.{record_fact, file, create, save, release, submit};
ghost use Rattle.wf_object.specs.Documents.{command_of};
ghost use Rattle.next_step.specs.Views.{first_given};
ghost use Rattle.next_step.specs.Next as next;
ghost use Rattle.next_step.specs.Next.{get};
ghost use Rattle.worker_job.specs.Inside.{look_told};
ghost use Rattle.worker_job.specs.Told.{resubmission_told};
ghost use Rattle.worker_job.specs.Readings as reads;

use crate::job::Job;
use crate::marks::{Found, Marks, Pods};
use crate::matter::Resubmission;
use ahead::Ahead;
use base_types::{Memory, Shared, Text, TryCopy};
use books::LockState;
use item_reader::Command;
use memo_cache::Cache;
use recorded::Recorded;
use suspend_resume::resumes;
use tree_types::{
    HolderKey, Kind, LockId, Node, Outcome, Outputs, Path, Phase, Rank, Want, fulfilled,
};
use wf_bundle::Document;
use wf_manifest::{Manifest, Template};
use wf_object::{PodObject, WfObject};

// The views of a job, where the workflow was read, and the document.
#[derive(Clone, Copy)]
pub(crate) struct Reading<'a> {
    pub(crate) job: &'a Job,
    pub(crate) document: &'a Document,
    pub(crate) object: &'a WfObject,
    pub(crate) version: u64,
    pub(crate) tick: u64,
    pub(crate) marks: &'a Marks,
    pub(crate) found: &'a Option<Found>,
    pub(crate) to_save: &'a Ahead,
    pub(crate) to_file: &'a Ahead,
}

// Whether the manifest or one of its templates has a lock.
pub(crate) fn has_locks(manifest: &Manifest) -> bool
    ensures { result ≡ next.has_locks manifest.now }
{
    manifest.lock.is_some() || has_template_locks(manifest.templates.as_slice())
}

fn has_template_locks(templates: &[Template]) -> bool
    ensures { result ≡ list_any (λ template. is_some template.lock) templates.now }
{
    templates.iter().any(|template| template.lock.is_some())
}

impl<'a> Reading<'a> {
    // ---- what is read off the views

    // The key of a path of this workflow.
    pub(crate) fn key(&self, path: &Path) -> Result<HolderKey, Memory>
        ensures { IfOk result (λ k. k ≡ justified.key (reads.workflow self.now) path.now) }
    {
        Ok(HolderKey {
            workflow: self.job.workflow().copy()?,
            path: path.copy()?,
        })
    }

    // The rank of a path whose node has this name.
    pub(crate) fn rank(&self, path: &Path, name: &Text) -> Result<Shared<Rank>, Memory>
        ensures { IfOk result (λ r. r
            ≡ justified.rank self.now.object.now.manifest path.now.sels name.now) }
    {
        let manifest = self.object.manifest();
        let rank = Rank {
            priority: manifest.priority,
            created: manifest.created,
            workflow: manifest.name.copy()?,
            own: path.sels.is_empty(),
            name: name.copy()?,
        };
        Ok(Shared::new(name.allocator(), rank)?)
    }

    // The pods that are asked for, and the looks at them.
    pub(crate) fn pods(&self) -> Pods<'a>
        ensures looks { map look_told result.looks.now ≡ self.now.job.now.views.pods }
        ensures object { result.object.now ≡ self.now.object.now }
    {
        Pods {
            looks: self.job.looks(),
            object: self.object,
        }
    }

    // The name of a path's node.
    fn node_name(&self, path: &Path) -> Option<&Text>
        ensures { option_copied result ≡ reads.named self.now path.now }
    {
        match self.object.state().node(path.sels.as_slice()) {
            None => None,
            Some(node) => Some(&node.name),
        }
    }

    // The same, and of the empty path the workflow's.
    fn name_at(&self, path: &Path) -> Option<&Text>
        ensures { option_copied result ≡ reads.named_at self.now path.now }
    {
        if path.sels.is_empty() {
            Some(&self.object.manifest().name)
        } else {
            self.node_name(path)
        }
    }

    // Which lock a path asked for, and how its request stands, by the view of the book.
    pub(crate) fn standing(&self, path: &Path) -> Option<(&LockId, LockState)>
        ensures { option_map (λ s. (s.0.now, s.1)) result ≡ reads.stands self.now path.now }
    {
        match self.job.locks() {
            None => None,
            Some(book) => book.standing(self.job.workflow(), path),
        }
    }

    // Whether a path holds its lock, by the view of the book.
    fn holds(&self, path: &Path) -> bool
        ensures { result ≡ reads.is_held self.now path.now }
    {
        match self.job.locks() {
            None => false,
            Some(book) => book.holds(self.job.workflow(), path),
        }
    }

    // The pod of a path, as it was read.
    fn pod(&self, path: &Path) -> Option<&PodObject>
        ensures { option_copied result ≡ reads.pod_of self.now path.now }
    {
        match self.node_name(path) {
            None => None,
            Some(name) => self.job.pod(name),
        }
    }

    // ---- what a want gives

    // The name of a pod that was not looked at.
    pub(crate) fn unlooked<'b>(&'b self, want: &'b Want) -> Option<&'b Text>
        ensures { option_map (λ n. get (of_key.Pod (reads.workflow self.now) n.now)) result
            ≡ reads.reading self.now want.now }
    {
        let Want::Pod(path) = want else { return None };
        match self.node_name(path) {
            None => None,
            Some(name) => match self.job.look(name) {
                None => Some(name),
                Some(_) => None,
            },
        }
    }

    // The outcome of a pod that finished.
    pub(crate) fn finished<'b>(&'b self, want: &'b Want) -> Option<(&'b Path, &'b Shared<Outcome>)>
        ensures { option_map (λ f. record_fact (fact.Settled f.0.now f.1.now)) result
            ≡ reads.settling self.now want.now }
    {
        let Want::Pod(path) = want else { return None };
        match self.pod(path) {
            None => None,
            Some(pod) => match pod.outcome() {
                None => None,
                Some(outcome) => Some((path, outcome)),
            },
        }
    }

    // The path of a lock that the book shows as held.
    pub(crate) fn holding<'b>(&'b self, want: &'b Want) -> Option<&'b Path>
        ensures { option_map (λ p. record_fact (fact.Granted p.now)) result
            ≡ reads.granting self.now want.now }
    {
        let Want::Lock(path, _) = want else {
            return None
        };
        if self.holds(path) { Some(path) } else { None }
    }

    // The path of a lock that the book does not know, the lock, and the name of the path's node.
    pub(crate) fn unknown<'b>(&'b self, want: &'b Want) -> Option<(&'b Path, &'b LockId, &'b Text)>
        ensures { option_map
            (λ u. file u.1.now (justified.key (reads.workflow self.now) u.0.now)
            (justified.rank self.now.object.now.manifest u.0.now.sels u.2.now)) result
            ≡ reads.filing self.now want.now }
    {
        let Want::Lock(path, lock) = want else {
            return None
        };
        if self.job.locks().is_none() || self.standing(path).is_some() {
            return None;
        }
        match self.name_at(path) {
            None => None,
            Some(name) => Some((path, lock, name)),
        }
    }

    // The path of a timer that the view's tick has reached.
    pub(crate) fn reached<'b>(&self, want: &'b Want) -> Option<&'b Path>
        ensures { option_map (λ p. record_fact (fact.Due p.now)) result
            ≡ reads.timing self.now want.now }
    {
        match want {
            Want::Timer(path, tick) if *tick <= self.tick => Some(path),
            _ => None,
        }
    }

    // The path and the name of a pod that was noted as absent.
    pub(crate) fn noted<'b>(&'b self, want: &'b Want) -> Option<(&'b Path, &'b Text)>
        ensures { option_map (λ n. create n.0.now n.1.now) result
            ≡ reads.creating self.now want.now }
    {
        let Want::Pod(path) = want else { return None };
        match self.node_name(path) {
            None => None,
            Some(name) => match self.job.look(name) {
                Some(look) if look.found.is_none() => Some((path, name)),
                _ => None,
            },
        }
    }

    // What is to be saved: the path, the cache, the key and the outputs.
    pub(crate) fn unsaved<'b>(
        &self,
        saves: &Cache,
        want: &'b Want,
    ) -> Option<(&'b Path, &'b Text, &'b Text, &'b Outputs)>
        ensures { option_map
            (λ u. save u.1.now u.2.now (justified.key (reads.workflow self.now) u.0.now) u.3.now) result
            ≡ reads.saving self.now saves.now want.now }
    {
        let Want::Save(path, cache, key, outputs) = want else {
            return None;
        };
        if saves.has_saved(self.job.workflow(), path) {
            None
        } else {
            Some((path, cache, key, outputs))
        }
    }

    // ---- what a node gives

    // Whether a command resumes what was armed then.
    fn is_resumed(&self, armed: u64) -> bool
        ensures { result ≡ list_any (reads.resumes self.now armed) (reads.law self.now).commands }
    {
        self.any_resumes(armed, self.document.commands.as_slice())
    }

    fn any_resumes(&self, armed: u64, commands: &[Command]) -> bool
        ensures { result
            ≡ list_any (reads.resumes self.now armed) (map command_of commands.now) }
    {
        for command in commands {
            if self.resumes(armed, command) {
                return true;
            }
        }
        false
    }

    // Whether some command resumes nodes of this workflow.
    pub(crate) fn may_resume(&self) -> bool
        ensures { result ≡ list_any
            (reads.is_resumption (reads.workflow self.now)) (reads.law self.now).commands }
    {
        self.any_resumption(self.document.commands.as_slice())
    }

    fn any_resumption(&self, commands: &[Command]) -> bool
        ensures { result ≡ list_any
            (reads.is_resumption (reads.workflow self.now)) (map command_of commands.now) }
    {
        for command in commands {
            if self.is_resumption(command) {
                return true;
            }
        }
        false
    }

    fn is_resumption(&self, command: &Command) -> bool
        ensures { result
            ≡ reads.is_resumption (reads.workflow self.now) (command_of command.now) }
    {
        match command {
            Command::Resume { tick: _, workflow } => *workflow == *self.job.workflow(),
            Command::Resubmit { .. } => false,
        }
    }

    fn resumes(&self, armed: u64, command: &Command) -> bool
        ensures { result ≡ reads.resumes self.now armed (command_of command.now) }
    {
        match command {
            Command::Resume { tick, workflow } => {
                *workflow == *self.job.workflow() && resumes(armed, *tick, self.tick)
            }
            Command::Resubmit { .. } => false,
        }
    }

    // The path of a suspended node that is resumed.
    pub(crate) fn resumed<'b>(&self, node: &'b Node) -> Option<&'b Path>
        ensures { option_map (λ p. record_fact (fact.Resumed p.now)) result
            ≡ reads.resuming self.now node.now }
    {
        if !(matches!(node.kind, Kind::Suspend) && matches!(node.phase, Phase::Running)) {
            return None;
        }
        match self.object.journal().armed(&node.path.sels) {
            Some(armed) if self.is_resumed(armed) => Some(&node.path),
            _ => None,
        }
    }

    // The lock that a path holds.
    pub(crate) fn held(&self, path: &Path) -> Option<&LockId>
        ensures { option_map (λ l. release l.now (justified.key (reads.workflow self.now) path.now)) result
            ≡ reads.release_held self.now path.now }
    {
        if !self.holds(path) {
            return None;
        }
        match self.standing(path) {
            Some((lock, LockState::Holding)) => Some(lock),
            _ => None,
        }
    }

    // The workflow's own lock, where it is over and holds it.
    pub(crate) fn own_held(&self, root: &Path) -> Option<&LockId>
        requires { root.now ≡ path [] }
        ensures { option_map (λ l. release l.now (justified.key (reads.workflow self.now) (path []))) result
            ≡ reads.release_own self.now }
    {
        if self.object.is_over() {
            self.held(root)
        } else {
            None
        }
    }

    // A node that is over and holds its lock: the lock and the path.
    pub(crate) fn kept<'b>(&'b self, node: &'b Node) -> Option<(&'b LockId, &'b Path)>
        ensures { option_map (λ k. release k.0.now (justified.key (reads.workflow self.now) k.1.now)) result
            ≡ reads.releasing self.now node.now }
    {
        if !fulfilled(node.phase) || node.path.sels.is_empty() {
            return None;
        }
        match self.held(&node.path) {
            None => None,
            Some(lock) => Some((lock, &node.path)),
        }
    }

    // ---- what a command gives

    // A resubmission of this workflow that was not tried.
    pub(crate) fn untried(&self, command: &Command) -> Result<Option<Resubmission>, Memory>
        ensures { IfOk result (λ r. option_map (λ c. submit (resubmission_told c)) r
            ≡ reads.submitting self.now (command_of command.now)) }
    {
        let Command::Resubmit {
            tick,
            old,
            name,
            memoized,
            created,
        } = command
        else {
            return Ok(None);
        };
        if *old != *self.job.workflow()
            || *tick > self.tick
            || !self.object.is_over()
            || self.job.has_tried(name)
        {
            return Ok(None);
        }
        Ok(Some(Resubmission {
            tick: *tick,
            old: old.copy()?,
            name: name.copy()?,
            memoized: *memoized,
            created: *created,
        }))
    }

    // The first of them.
    pub(crate) fn first_untried(&self, commands: &[Command]) -> Result<Option<Resubmission>, Memory>
        ensures { IfOk result (λ r. option_map (λ c. submit (resubmission_told c)) r
            ≡ first_given (reads.submitting self.now) (map command_of commands.now)) }
    {
        for command in commands {
            let untried = self.untried(command)?;
            if untried.is_some() {
                return Ok(untried);
            }
        }
        Ok(None)
    }
}
