//! What was read and noted in a job.

ghost use Rattle.std.specs.Prelude.{◌≡◌, ◌∷◌, [], None, Some, true, not, cond, List as Seq, map, filter, bytes_eq, is_some, IfOk, OnOk, MatchOption, option_copied, option_map, option_and_then, IsTrue};
ghost use Rattle.std.specs.List.{list_any};
ghost use Rattle.tree_types.specs.declared.entry.Key.TheVariants as of_key;
ghost use Rattle.law.specs.Contents.{Flow, Book, flow_in};
ghost use Rattle.law.specs.Justified.{wants_of};
ghost use Rattle.tree_state.specs.declared.kinds.WantKind.TheVariants as kind;
ghost use Rattle.ahead.specs.Left.{AheadOf};
ghost use Rattle.pod_laws.specs.NewPods.{NoneNew};
ghost use Rattle.pod_laws.specs.NewLocks.{locks};
ghost use Rattle.saves.specs.declared.Saved.{Saved};
ghost use Rattle.wf_object.specs.Documents.{law_of};
ghost use Rattle.wf_object.specs.Kept.{law_book, locks_in, caches_in};
ghost use Rattle.next_step.specs.Views.{Seen, nothing, is_look, look_at, pod_seen};
ghost use Rattle.next_step.specs.Next.{worker_next, get, act};
ghost use Rattle.next_step.specs.Replies.{after, taken, with_look, seen, found, accepted, no_object, exists};
ghost use Rattle.worker_job.specs.Jobs.{Leaves, IsRead, HasMore, GoesOn, FactGoesOn, HasMoreSaves, SavesGoOn, SaveGoesOn, BookGoesOn, LocksGoOn, KeepsRequests, ShowsFlow, ShowsBook, ShowsSaves};
ghost use Rattle.worker_job.specs.Told.{matter_told, next_told, key_of};
ghost use Rattle.worker_job.specs.Inside.Filing.{is_unknown, FiledOf, FiledFits, FilingFits};
ghost use Rattle.worker_job.specs.Inside.Marks.{IsMarked, MarksFit, FoundFits};
ghost use Rattle.worker_job.specs.Inside.Saving.{is_left, SavingFits};
ghost use Rattle.worker_job.specs.Inside.{look_told, pod_told, kept_saves, flow_seen, book_seen, saves_seen};

use crate::marks::{Found, Marks, Pods};
use crate::matter::{Matter, Next};
use crate::reading::Reading;
use crate::to_file::{Near, ToFile};
use crate::to_save::ToSave;
use ahead::Ahead;
use base_types::{List, Memory, Names, Text, TryCopy};
use looks::{Look, Looks};
use memo_cache::Cache;
use object_store::Snapshot;
use std::alloc::Global;
use std::marker::Model;
use std::mem;
use sync_locks::LockBook;
use tree_incr::WantKind;
use tree_types::{Fact, Key};
use wf_bundle::Document;
use wf_object::{PodObject, WfContent, WfObject};

/// A pod as it was read.
#[derive(Drop)]
pub(crate) struct SeenPod {
    pub(crate) version: u64,
    pub(crate) pod: PodObject,
    pub(crate) tick: u64,
}

/// A worker's job on one workflow. Contracts see the workflow's name, and what was read and noted so far.
pub struct Job {
    workflow: Text,
    flow: Option<Snapshot<WfContent>>,
    book: Option<Snapshot<WfContent>>,
    saves: Option<Snapshot<WfContent>>,
    looks: Looks<SeenPod>,
    marks: Marks,
    found: Option<Found>,
    to_save: Ahead,
    to_file: Ahead,
    // The names of the resubmissions that were tried, the last one last.
    tried: Names,
}

// Written out, so that proofs about code that drops a job see one call.
impl Drop for Job {
    fn drop(self) {
        let Job {
            workflow: _,
            flow: _,
            book: _,
            saves: _,
            looks: _,
            marks: _,
            found: _,
            to_save: _,
            to_file: _,
            tried: _,
        } = self;
    }
}

impl Model for Job {
    ghost use Rattle.worker_job.specs.Jobs.{OneJob};
    ghost use Rattle.worker_job.specs.JobCode.{job_code};

    ghost Value = { OneJob };

    ghost coded = { job_code };

    ghost use Rattle.worker_job.specs.Inside.{job_of, IsHeld};

    ghost view = { job_of };

    ghost invariant = { IsHeld };
}

impl Job {
    /// A job that begins. It takes no memory.
    pub fn new(alloc: Global, workflow: Text) -> Job
        ensures { result ≡ record { workflow = workflow; views = nothing } }
    {
        Job {
            workflow,
            flow: None,
            book: None,
            saves: None,
            looks: Looks::new(alloc),
            marks: Marks::none(),
            found: None,
            to_save: Ahead::unknown(),
            to_file: Ahead::unknown(),
            tried: List::new(alloc),
        }
    }

    /// The workflow's name.
    pub fn workflow(&self) -> &Text
        ensures { result.now ≡ self.now.workflow }
    {
        &self.workflow
    }

    /// The next step, by what was read and noted.
    pub fn next(&self, document: &Document) -> Result<Next, Memory>
        ensures { IfOk result (λ n. next_told n
            ≡ worker_next (law_of document.now) self.now.workflow self.now.views) }
    {
        match self.flow() {
            None => Ok(Next::Get(Key::Workflow(self.workflow.copy()?))),
            Some(snapshot) => {
                let Some(object) = snapshot.content.workflow() else {
                    unreachable!()
                };
                let reading = Reading {
                    job: self,
                    document,
                    object,
                    version: snapshot.version,
                    tick: snapshot.tick,
                    marks: &self.marks,
                    found: &self.found,
                    to_save: &self.to_save,
                    to_file: &self.to_file,
                };
                reading.next()
            }
        }
    }

    // ---- the views

    /// The workflow as it was read.
    pub fn flow(&self) -> Option<&Snapshot<WfContent>>
        ensures { MatchOption result
            (self.now.views.flow ≡ None)
            (λ s. ShowsFlow s.now self.now.workflow self.now.views) }
    {
        self.flow.as_ref()
    }

    /// The lock book as it was read.
    pub fn book(&self) -> Option<&Snapshot<WfContent>>
        ensures { MatchOption result
            (self.now.views.book ≡ None)
            (λ s. ShowsBook s.now self.now.views) }
    {
        self.book.as_ref()
    }

    /// The saves as they were read.
    pub fn saves(&self) -> Option<&Snapshot<WfContent>>
        ensures { MatchOption result
            (self.now.views.saves ≡ None)
            (λ s. ShowsSaves s.now self.now.views) }
    {
        self.saves.as_ref()
    }

    // The lock book.
    pub(crate) fn locks(&self) -> Option<&LockBook>
        ensures { option_map (λ book. law_book book.now) result
            ≡ option_map (λ b. b.content) self.now.views.book }
    {
        match self.book() {
            None => None,
            Some(snapshot) => snapshot.content.locks(),
        }
    }

    // The saves, and the tick at which they were read.
    pub(crate) fn cache(&self) -> Option<(&Cache, u64)>
        ensures { option_map (λ c. (c.0.now, c.1)) result ≡ kept_saves self.now.views.saves }
    {
        match self.saves() {
            None => None,
            Some(snapshot) => match snapshot.content.caches() {
                None => None,
                Some(cache) => Some((cache, snapshot.tick)),
            },
        }
    }

    // The looks at pods.
    pub(crate) fn looks(&self) -> &Looks<SeenPod>
        ensures { map look_told result.now ≡ self.now.views.pods }
    {
        &self.looks
    }

    // The last look at the pod of a name.
    pub(crate) fn look(&self, name: &Text) -> Option<&Look<SeenPod>>
        ensures { option_map (λ l. look_told l.now) result ≡ look_at self.now.views name.now }
    {
        self.looks.last(name)
    }

    // The pod of a name, as it was read.
    pub(crate) fn pod(&self, name: &Text) -> Option<&PodObject>
        ensures { option_copied result ≡ pod_seen self.now.views name.now }
    {
        match self.look(name) {
            None => None,
            Some(look) => match &look.found {
                None => None,
                Some(seen) => Some(&seen.pod),
            },
        }
    }

    // Whether the resubmission of a name was tried.
    pub(crate) fn has_tried(&self, name: &Text) -> bool
        ensures { result ≡ list_any (bytes_eq name.now) self.now.views.tried }
    {
        is_among(name, self.tried.as_slice())
    }

    // ---- what an answer makes of the job: each tells whether it goes on

    /// What was asked for is this.
    pub fn found(&mut self, snapshot: Snapshot<WfContent>) -> Result<bool, Memory>
        requires { IsRead self.old.workflow snapshot.key }
        ensures after { IfOk result (λ on. Leaves on
            (after self.old.views (get snapshot.key)
            (found (seen snapshot.version snapshot.content snapshot.tick))) self.new.views) }
        ensures workflow { self.new.workflow ≡ self.old.workflow }
    {
        match &snapshot.key {
            Key::Workflow(_) => Ok(self.keep_flow(snapshot)),
            Key::Pod(_, name) => self.keep_pod(name, &snapshot),
            Key::Locks => Ok(self.keep_book(snapshot)),
            Key::Caches => Ok(self.keep_saves(snapshot)),
        }
    }

    /// What was asked for is not there.
    pub fn absent(&mut self, key: &Key) -> Result<bool, Memory>
        ensures after { IfOk result (λ on. Leaves on
            (after self.old.views (get key.now) no_object) self.new.views) }
        ensures workflow { self.new.workflow ≡ self.old.workflow }
    {
        match key {
            Key::Pod(_, name) => {
                self.note(name.copy()?, None)?;
                Ok(true)
            }
            _ => Ok(false),
        }
    }

    /// The change was accepted, and its object is this.
    pub fn did(&mut self, matter: &Matter, snapshot: Snapshot<WfContent>) -> Result<bool, Memory>
        requires key { snapshot.key ≡ key_of self.old.workflow (matter_told matter.now) }
        requires goes_on { FactGoesOn (matter_told matter.now) self.old.views snapshot.content }
        requires saved { SaveGoesOn (matter_told matter.now) self.old.views snapshot.content }
        requires locks { LocksGoOn (matter_told matter.now) self.old.views snapshot.content }
        ensures after { IfOk result (λ on. Leaves on
            (after self.old.views (act (matter_told matter.now))
            (accepted (seen snapshot.version snapshot.content snapshot.tick))) self.new.views) }
        ensures workflow { self.new.workflow ≡ self.old.workflow }
    {
        match matter {
            Matter::RecordFact(fact) => self.go_on(fact, snapshot),
            Matter::Save(_, _, _, _) => self.save_on(snapshot),
            Matter::File(_, _, _) | Matter::Release(_, _) => self.book_on(snapshot),
            Matter::Submit(resubmission) => {
                self.note_try(&resubmission.name)?;
                Ok(true)
            }
            _ => self.found(snapshot),
        }
    }

    /// What was to be made is there already.
    pub fn there(&mut self, matter: &Matter) -> Result<bool, Memory>
        ensures after { IfOk result (λ on. Leaves on
            (after self.old.views (act (matter_told matter.now)) exists) self.new.views) }
        ensures workflow { self.new.workflow ≡ self.old.workflow }
    {
        match matter {
            Matter::Create(_, name) => {
                self.forget(name)?;
                Ok(true)
            }
            Matter::Submit(resubmission) => {
                self.note_try(&resubmission.name)?;
                Ok(true)
            }
            _ => Ok(false),
        }
    }

    // ---- what was read becomes the view of its key, where it is of the key's kind

    fn keep_flow(&mut self, snapshot: Snapshot<WfContent>) -> bool
        requires { snapshot.key ≡ of_key.Workflow self.old.workflow }
        ensures after { Leaves result
            (taken self.old.views snapshot.key snapshot.version snapshot.tick snapshot.content)
            self.new.views }
        ensures workflow { self.new.workflow ≡ self.old.workflow }
    {
        let Some(object) = snapshot.content.workflow() else {
            return false;
        };
        let filed = self.knows_of(object);
        self.set_flow(snapshot, Marks::none(), filed);
        true
    }

    // A fact was recorded, and the workflow is this one now.
    fn go_on(&mut self, fact: &Fact, snapshot: Snapshot<WfContent>) -> Result<bool, Memory>
        requires key { snapshot.key ≡ of_key.Workflow self.old.workflow }
        requires goes_on { GoesOn self.old.views snapshot.content }
        ensures after { IfOk result (λ on. Leaves on
            (taken self.old.views snapshot.key snapshot.version snapshot.tick snapshot.content)
            self.new.views) }
        ensures workflow { self.new.workflow ≡ self.old.workflow }
    {
        let Some(object) = snapshot.content.workflow() else {
            return Ok(false);
        };
        let marks = self.marks_at(fact, object)?;
        let filed = self.filed_at(object);
        self.set_flow(snapshot, marks, filed);
        Ok(true)
    }

    // Whether each lock is known to be filed, where the workflow becomes this one by a fact.
    fn filed_at(&self, object: &WfObject) -> bool
        requires { (s : Seen Flow) → self.now.views.flow ≡ Some s → HasMore s.content object.now }
        ensures { FiledOf result self.now.workflow object.now self.now.views.book }
    {
        if self.is_still_filed(object) {
            return true;
        }
        self.knows_of(object)
    }

    // Whether the book that was read knows each lock that a workflow asks for.
    fn knows_of(&self, object: &WfObject) -> bool
        ensures { FiledOf result self.now.workflow object.now self.now.views.book }
    {
        match self.locks() {
            None => false,
            Some(book) => {
                let to_file = ToFile {
                    workflow: &self.workflow,
                    book,
                    near: Near::first(&self.workflow, book, object),
                };
                to_file.is_done(object)
            }
        }
    }

    // Whether a book knows each lock that the workflow asks for that was read.
    fn knows_all(&self, snapshot: &Snapshot<WfContent>) -> bool
        ensures { FiledFits result self.now.workflow self.now.views.flow (book_seen snapshot.now) }
    {
        let (Some(flow), Some(book)) = (self.flow(), snapshot.content.locks()) else {
            return false;
        };
        match flow.content.workflow() {
            None => false,
            Some(object) => {
                let to_file = ToFile {
                    workflow: &self.workflow,
                    book,
                    near: Near::first(&self.workflow, book, object),
                };
                to_file.is_done(object)
            }
        }
    }

    // Whether it was known that each lock is filed, and the fact by which the workflow becomes this one adds none.
    fn is_still_filed(&self, object: &WfObject) -> bool
        requires { (s : Seen Flow) → self.now.views.flow ≡ Some s → HasMore s.content object.now }
        ensures { FiledOf result self.now.workflow object.now self.now.views.book }
    {
        let Some(flow) = self.flow() else {
            return false;
        };
        let Some(before) = flow.content.workflow() else {
            return false;
        };
        self.to_file.is_nothing() && adds_no_lock(before, object)
    }

    // The marks, where the workflow becomes this one by a fact.
    fn marks_at(&self, fact: &Fact, object: &WfObject) -> Result<Marks, Memory>
        requires { (s : Seen Flow) → self.now.views.flow ≡ Some s → HasMore s.content object.now }
        ensures { IfOk result (IsMarked self.now.views.pods object.now) }
    {
        let Some(flow) = &self.flow else {
            return Ok(Marks::none());
        };
        let pods = Pods {
            looks: &self.looks,
            object,
        };
        match flow.content.workflow() {
            None => Ok(Marks::none()),
            Some(before) => self.marks.behind(fact, before, &pods),
        }
    }

    fn keep_book(&mut self, snapshot: Snapshot<WfContent>) -> bool
        requires { snapshot.key ≡ of_key.Locks }
        ensures after { Leaves result
            (taken self.old.views snapshot.key snapshot.version snapshot.tick snapshot.content)
            self.new.views }
        ensures workflow { self.new.workflow ≡ self.old.workflow }
    {
        if snapshot.content.locks().is_some() {
            let filed = self.knows_all(&snapshot);
            let to_file = nothing_if(self.workflow.allocator(), filed);
            self.set_book(snapshot, to_file);
            true
        } else {
            false
        }
    }

    // A lock was filed or released, and the book is this one now.
    fn book_on(&mut self, snapshot: Snapshot<WfContent>) -> Result<bool, Memory>
        requires key { snapshot.key ≡ of_key.Locks }
        requires goes_on { BookGoesOn self.old.views snapshot.content }
        ensures after { IfOk result (λ on. Leaves on
            (taken self.old.views snapshot.key snapshot.version snapshot.tick snapshot.content)
            self.new.views) }
        ensures workflow { self.new.workflow ≡ self.old.workflow }
    {
        let to_file = mem::replace(&mut self.to_file, Ahead::unknown());
        let Some(book) = snapshot.content.locks() else {
            return Ok(false);
        };
        let to_file = self.left_to_file(to_file, book)?;
        self.set_book(snapshot, to_file);
        Ok(true)
    }

    // What is left to be filed, where the book becomes this one.
    fn left_to_file(&self, ahead: Ahead, book: &LockBook) -> Result<Ahead, Memory>
        requires fits { FilingFits ahead self.now.workflow self.now.views.flow self.now.views.book }
        requires more { (s : Seen Book) → self.now.views.book ≡ Some s → KeepsRequests s.content.requests book.now.requests }
        ensures { IfOk result (λ ahead. (s : Seen Flow) → self.now.views.flow ≡ Some s
            → AheadOf kind.Lock (is_unknown self.now.workflow book.now.requests) ahead (wants_of s.content)) }
    {
        let (Some(flow), Some(_)) = (self.flow(), self.book()) else {
            return Ok(Ahead::unknown());
        };
        match flow.content.workflow() {
            None => Ok(Ahead::unknown()),
            Some(object) => {
                let left = ToFile {
                    workflow: &self.workflow,
                    book,
                    near: None,
                };
                ahead.moved(WantKind::Lock, &left, object.state())
            }
        }
    }

    fn keep_saves(&mut self, snapshot: Snapshot<WfContent>) -> bool
        requires { snapshot.key ≡ of_key.Caches }
        ensures after { Leaves result
            (taken self.old.views snapshot.key snapshot.version snapshot.tick snapshot.content)
            self.new.views }
        ensures workflow { self.new.workflow ≡ self.old.workflow }
    {
        if snapshot.content.caches().is_some() {
            self.set_saves(snapshot, Ahead::unknown());
            true
        } else {
            false
        }
    }

    // Something was saved, and the saves are these now.
    fn save_on(&mut self, snapshot: Snapshot<WfContent>) -> Result<bool, Memory>
        requires key { snapshot.key ≡ of_key.Caches }
        requires goes_on { SavesGoOn self.old.views snapshot.content }
        ensures after { IfOk result (λ on. Leaves on
            (taken self.old.views snapshot.key snapshot.version snapshot.tick snapshot.content)
            self.new.views) }
        ensures workflow { self.new.workflow ≡ self.old.workflow }
    {
        let to_save = mem::replace(&mut self.to_save, Ahead::unknown());
        let Some(saves) = snapshot.content.caches() else {
            return Ok(false);
        };
        let to_save = self.left_to_save(to_save, saves)?;
        self.set_saves(snapshot, to_save);
        Ok(true)
    }

    // What is left to be saved, where the saves become these.
    fn left_to_save(&self, ahead: Ahead, saves: &Cache) -> Result<Ahead, Memory>
        requires fits { SavingFits ahead self.now.workflow self.now.views.flow self.now.views.saves }
        requires more { (s : Seen (Seq Saved)) → self.now.views.saves ≡ Some s → HasMoreSaves s.content saves.now }
        ensures { IfOk result (λ ahead. (s : Seen Flow) → self.now.views.flow ≡ Some s
            → AheadOf kind.Save (is_left self.now.workflow saves.now) ahead (wants_of s.content)) }
    {
        let (Some(flow), Some(_)) = (self.flow(), self.saves()) else {
            return Ok(Ahead::unknown());
        };
        match flow.content.workflow() {
            None => Ok(Ahead::unknown()),
            Some(object) => {
                let left = ToSave {
                    workflow: &self.workflow,
                    saves,
                };
                ahead.moved(WantKind::Save, &left, object.state())
            }
        }
    }

    fn keep_pod(&mut self, name: &Text, snapshot: &Snapshot<WfContent>) -> Result<bool, Memory>
        ensures after { IfOk result (λ on. Leaves on
            (taken self.old.views (of_key.Pod self.old.workflow name.now)
            snapshot.now.version snapshot.now.tick snapshot.now.content)
            self.new.views) }
        ensures workflow { self.new.workflow ≡ self.old.workflow }
    {
        match snapshot.content.pod() {
            None => Ok(false),
            Some(pod) => {
                let seen = SeenPod {
                    version: snapshot.version,
                    pod: pod.copy()?,
                    tick: snapshot.tick,
                };
                self.note(name.copy()?, Some(seen))?;
                Ok(true)
            }
        }
    }

    // ---- one change of what is kept

    // The saves are to be read after the workflow.
    fn set_flow(&mut self, snapshot: Snapshot<WfContent>, marks: Marks, filed: bool)
        requires key { snapshot.key ≡ of_key.Workflow self.old.workflow }
        requires kind { is_some (flow_in (Some snapshot.content)) ≡ true }
        requires marked { MarksFit self.old.views.pods (flow_in (Some snapshot.content)) marks }
        requires filed { FiledFits filed self.old.workflow (flow_seen snapshot) self.old.views.book }
        ensures views { self.new.views
            ≡ record self.old.views { flow = flow_seen snapshot; saves = None } }
        ensures workflow { self.new.workflow ≡ self.old.workflow }
    {
        self.flow = Some(snapshot);
        self.saves = None;
        self.to_save = Ahead::unknown();
        self.to_file = nothing_if(self.workflow.allocator(), filed);
        let (marks, found) = marks_behind(&self.flow, &self.looks, marks);
        self.marks = marks;
        self.found = found;
    }

    fn set_book(&mut self, snapshot: Snapshot<WfContent>, to_file: Ahead)
        requires key { snapshot.key ≡ of_key.Locks }
        requires kind { is_some (locks_in (Some snapshot.content)) ≡ true }
        requires to_file { FilingFits to_file self.old.workflow self.old.views.flow (book_seen snapshot) }
        ensures views { self.new.views ≡ record self.old.views { book = book_seen snapshot } }
        ensures workflow { self.new.workflow ≡ self.old.workflow }
    {
        self.book = Some(snapshot);
        self.to_file = to_file;
    }

    fn set_saves(&mut self, snapshot: Snapshot<WfContent>, to_save: Ahead)
        requires key { snapshot.key ≡ of_key.Caches }
        requires kind { is_some (caches_in (Some snapshot.content)) ≡ true }
        requires to_save { SavingFits to_save self.old.workflow self.old.views.flow (saves_seen snapshot) }
        ensures views { self.new.views ≡ record self.old.views { saves = saves_seen snapshot } }
        ensures workflow { self.new.workflow ≡ self.old.workflow }
    {
        self.saves = Some(snapshot);
        self.to_save = to_save;
    }

    // A look at the pod of a name.
    fn note(&mut self, name: Text, found: Option<SeenPod>) -> Result<(), Memory>
        ensures views { OnOk result
            (self.new.views ≡ with_look self.old.views name (option_map pod_told found)) }
        ensures workflow { self.new.workflow ≡ self.old.workflow }
    {
        let marks = mem::replace(&mut self.marks, Marks::none()).after(&name, &found);
        self.found = None;
        self.looks.add(name, found)?;
        let (marks, found) = marks_behind(&self.flow, &self.looks, marks);
        self.marks = marks;
        self.found = found;
        Ok(())
    }

    // The looks at the pod of a name are dropped.
    fn forget(&mut self, name: &Text) -> Result<(), Memory>
        ensures views { OnOk result (self.new.views ≡ record self.old.views {
          pods = filter (λ l. not (is_look name.now l)) self.old.views.pods;
        }) }
        ensures workflow { self.new.workflow ≡ self.old.workflow }
    {
        self.marks = Marks::none();
        self.found = None;
        let none = Looks::new(self.workflow.allocator());
        let looks = mem::replace(&mut self.looks, none);
        self.looks = looks.without(name)?;
        Ok(())
    }

    // The resubmission of a name was tried.
    fn note_try(&mut self, name: &Text) -> Result<(), Memory>
        ensures views { OnOk result (self.new.views
            ≡ record self.old.views { tried = name.now ∷ self.old.views.tried }) }
        ensures workflow { self.new.workflow ≡ self.old.workflow }
    {
        let name = name.copy()?;
        self.tried.push(name)
    }
}

// The marks moved on, where a workflow was read, and what the next step finds by them.
fn marks_behind(
    flow: &Option<Snapshot<WfContent>>,
    looks: &Looks<SeenPod>,
    marks: Marks,
) -> (Marks, Option<Found>)
    requires { MarksFit (map look_told looks.now) (option_and_then (λ s. flow_in (Some s.content)) flow.now) marks }
    ensures marked { MarksFit (map look_told looks.now) (option_and_then (λ s. flow_in (Some s.content)) flow.now) result.0 }
    ensures found { FoundFits (map look_told looks.now) (option_and_then (λ s. flow_in (Some s.content)) flow.now) result.1 }
{
    let Some(snapshot) = flow else {
        return (marks, None);
    };
    match snapshot.content.workflow() {
        None => (marks, None),
        Some(object) => Pods { looks, object }.advanced(marks),
    }
}

// Nothing is left, where that is so; else it is not known what is.
fn nothing_if(alloc: Global, is_so: bool) -> Ahead
    ensures { result ≡ cond is_so (Some []) None }
{
    if is_so {
        Ahead::nothing(alloc)
    } else {
        Ahead::unknown()
    }
}

// Whether the second is the first with one fact more, by which it asks for no lock that the first does not ask for.
fn adds_no_lock(before: &WfObject, object: &WfObject) -> bool
    requires { HasMore before.now object.now }
    ensures { IsTrue result → NoneNew (locks object.now.manifest object.now.journal) (locks before.now.manifest before.now.journal) }
{
    let more = object.journal().len() - before.journal().len();
    more == 1 && object.state().adds_no_lock()
}

fn is_among(name: &Text, names: &[Text]) -> bool
    ensures { result ≡ list_any (bytes_eq name.now) names.now }
{
    for tried in names {
        if *name == *tried {
            return true;
        }
    }
    false
}
