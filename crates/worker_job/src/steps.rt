//! The steps of a worker in their order.

ghost use Rattle.std.specs.Prelude.{◌≡◌, [], IfOk, option_map, option_copied};
ghost use Rattle.std.specs.List.{list_any};
ghost use Rattle.meaning.specs.Answers.{path};
ghost use Rattle.law.specs.Due.{record_fact};
ghost use Rattle.law.specs.Justified.{wants_of};
ghost use Rattle.next_step.specs.Next as next;
ghost use Rattle.next_step.specs.Next.{act};
ghost use Rattle.worker_job.specs.Told.{next_told};
ghost use Rattle.tree_state.specs.declared.kinds.WantKind.TheVariants as kind;
ghost use Rattle.ahead.specs.Left.{AheadOf};
ghost use Rattle.worker_job.specs.Inside.Saving.{is_left};
ghost use Rattle.worker_job.specs.Readings as reads;
ghost use Rattle.worker_job.specs.Readings.{step_told};

use crate::matter::{Matter, Next};
use crate::reading::{Reading, has_locks};
use base_types::{Memory, Shared, TryCopy};
use memo_cache::Cache;
use tree_incr::WantKind;
use tree_types::{Fact, Key, LockId, Outputs, Path, Sels, Want};

// A fact is recorded.
fn records(fact: Fact) -> Next
    ensures { next_told result ≡ act (record_fact fact) }
{
    Next::Act(Matter::RecordFact(fact))
}

fn copied(outputs: Option<&Shared<Outputs>>) -> Result<Option<Shared<Outputs>>, Memory>
    ensures { IfOk result (λ copy. copy ≡ option_copied outputs.entry) }
{
    match outputs {
        None => Ok(None),
        Some(outputs) => Ok(Some(outputs.copy()?)),
    }
}

impl<'a> Reading<'a> {
    // What a worker does next: the first of the steps that applies.
    pub(crate) fn next(&self) -> Result<Next, Memory>
        requires marked { reads.KnowsPods self.now }
        requires to_save { reads.KnowsSaving self.now }
        requires to_file { reads.KnowsFiling self.now }
        ensures { IfOk result (λ n. next_told n ≡ next.first_step (reads.steps self.now)) }
    {
        if let Some(next) = self.read_book() {
            return Ok(next);
        }
        if let Some(next) = self.read_pod()? {
            return Ok(next);
        }
        if let Some(next) = self.start() {
            return Ok(next);
        }
        self.next_answer()
    }

    // The same, where the steps before do not apply.
    fn next_answer(&self) -> Result<Next, Memory>
        requires marked { reads.KnowsPods self.now }
        requires to_save { reads.KnowsSaving self.now }
        requires to_file { reads.KnowsFiling self.now }
        ensures { IfOk result (λ n. next_told n ≡ next.first_step (reads.answering_steps self.now)) }
    {
        if let Some(next) = self.settle()? {
            return Ok(next);
        }
        if let Some(next) = self.grant()? {
            return Ok(next);
        }
        if let Some(next) = self.file_one()? {
            return Ok(next);
        }
        self.next_waiting()
    }

    fn next_waiting(&self) -> Result<Next, Memory>
        requires marked { reads.KnowsPods self.now }
        requires to_save { reads.KnowsSaving self.now }
        ensures { IfOk result (λ n. next_told n ≡ next.first_step (reads.waiting_steps self.now)) }
    {
        if let Some(next) = self.look_up()? {
            return Ok(next);
        }
        if let Some(next) = self.arm()? {
            return Ok(next);
        }
        if let Some(next) = self.ring()? {
            return Ok(next);
        }
        self.next_change()
    }

    fn next_change(&self) -> Result<Next, Memory>
        requires marked { reads.KnowsPods self.now }
        requires to_save { reads.KnowsSaving self.now }
        ensures { IfOk result (λ n. next_told n ≡ next.first_step (reads.changing_steps self.now)) }
    {
        if let Some(next) = self.resume()? {
            return Ok(next);
        }
        if let Some(next) = self.create_one()? {
            return Ok(next);
        }
        if let Some(next) = self.save_one()? {
            return Ok(next);
        }
        self.next_last()
    }

    fn next_last(&self) -> Result<Next, Memory>
        ensures { IfOk result (λ n. next_told n ≡ next.first_step (reads.last_steps self.now)) }
    {
        if let Some(next) = self.release_one()? {
            return Ok(next);
        }
        if let Some(next) = self.resubmit()? {
            return Ok(next);
        }
        Ok(Next::Done)
    }

    // ---- reads

    fn read_book(&self) -> Option<Next>
        ensures { step_told result ≡ reads.read_book self.now }
    {
        if has_locks(self.object.manifest()) && self.job.book().is_none() {
            Some(Next::Get(Key::Locks))
        } else {
            None
        }
    }

    fn read_pod(&self) -> Result<Option<Next>, Memory>
        requires marked { reads.KnowsPods self.now }
        ensures { IfOk result (λ step. step_told step ≡ reads.read_pod self.now) }
    {
        match self.first_unlooked() {
            None => Ok(None),
            Some(name) => {
                let key = Key::Pod(self.job.workflow().copy()?, name.copy()?);
                Ok(Some(Next::Get(key)))
            }
        }
    }

    // ---- facts

    fn start(&self) -> Option<Next>
        ensures { step_told result ≡ reads.start self.now }
    {
        if self.object.journal().knows(&Fact::Started) {
            None
        } else {
            Some(records(Fact::Started))
        }
    }

    fn settle(&self) -> Result<Option<Next>, Memory>
        requires marked { reads.KnowsPods self.now }
        ensures { IfOk result (λ step. step_told step ≡ reads.settle self.now) }
    {
        match self.first_finished() {
            None => Ok(None),
            Some((path, outcome)) => {
                let fact = Fact::Settled(path.copy()?, outcome.copy()?);
                Ok(Some(records(fact)))
            }
        }
    }

    fn grant(&self) -> Result<Option<Next>, Memory>
        ensures { IfOk result (λ step. step_told step ≡ reads.grant self.now) }
    {
        match self.first_holding() {
            None => Ok(None),
            Some(path) => Ok(Some(records(Fact::Granted(path.copy()?)))),
        }
    }

    fn file_one(&self) -> Result<Option<Next>, Memory>
        requires to_file { reads.KnowsFiling self.now }
        ensures { IfOk result (λ step. step_told step ≡ reads.file_one self.now) }
    {
        match self.first_unknown() {
            None => Ok(None),
            Some((path, lock, name)) => {
                let matter = Matter::File(lock.copy()?, self.key(path)?, self.rank(path, name)?);
                Ok(Some(Next::Act(matter)))
            }
        }
    }

    // What a want of a look-up gives.
    fn looking(&self, want: &Want) -> Result<Option<Next>, Memory>
        ensures { IfOk result (λ step. step_told step ≡ reads.looking self.now want.now) }
    {
        let Want::LookUp(path, cache, entry, age) = want else {
            return Ok(None);
        };
        match self.job.cache() {
            None => Ok(Some(Next::Get(Key::Caches))),
            Some((saves, tick)) => {
                let answer = copied(saves.look(cache, entry, tick, *age))?;
                Ok(Some(records(Fact::Memo(path.copy()?, answer))))
            }
        }
    }

    fn look_up(&self) -> Result<Option<Next>, Memory>
        ensures { IfOk result (λ step. step_told step ≡ reads.look_up self.now) }
    {
        match self.object.state().first_want(WantKind::LookUp) {
            None => Ok(None),
            Some(want) => self.looking(want),
        }
    }

    // What a want of an arming gives.
    fn arming(&self, want: &Want) -> Result<Option<Next>, Memory>
        ensures { IfOk result (λ step. step_told step
            ≡ option_map act (reads.arming self.now want.now)) }
    {
        let Want::Arming(path) = want else {
            return Ok(None);
        };
        Ok(Some(records(Fact::Armed(path.copy()?, self.tick))))
    }

    fn arm(&self) -> Result<Option<Next>, Memory>
        ensures { IfOk result (λ step. step_told step ≡ reads.arm self.now) }
    {
        match self.object.state().first_want(WantKind::Arming) {
            None => Ok(None),
            Some(want) => self.arming(want),
        }
    }

    fn ring(&self) -> Result<Option<Next>, Memory>
        ensures { IfOk result (λ step. step_told step ≡ reads.ring self.now) }
    {
        match self.first_reached() {
            None => Ok(None),
            Some(path) => Ok(Some(records(Fact::Due(path.copy()?)))),
        }
    }

    fn resume(&self) -> Result<Option<Next>, Memory>
        ensures { IfOk result (λ step. step_told step ≡ reads.resume self.now) }
    {
        match self.first_resumed() {
            None => Ok(None),
            Some(path) => Ok(Some(records(Fact::Resumed(path.copy()?)))),
        }
    }

    // ---- changes of other objects

    fn create_one(&self) -> Result<Option<Next>, Memory>
        requires marked { reads.KnowsPods self.now }
        ensures { IfOk result (λ step. step_told step ≡ reads.create_one self.now) }
    {
        match self.first_noted() {
            None => Ok(None),
            Some((path, name)) => {
                let matter = Matter::Create(path.copy()?, name.copy()?);
                Ok(Some(Next::Act(matter)))
            }
        }
    }

    // Whether something is to be saved.
    fn asks_save(&self) -> bool
        ensures { result ≡ reads.asks_save self.now }
    {
        self.object.state().first_want(WantKind::Save).is_some()
    }

    // The first that is not among the saves.
    fn save_into(&self, saves: &Cache) -> Result<Option<Next>, Memory>
        requires to_save { AheadOf kind.Save (is_left (reads.workflow self.now) saves.now) self.now.to_save.now (wants_of self.now.object.now) }
        ensures { IfOk result (λ step. step_told step
            ≡ option_map act (reads.asked self.now (reads.saving self.now saves.now))) }
    {
        match self.first_unsaved(saves) {
            None => Ok(None),
            Some((path, cache, entry, outputs)) => {
                let writer = self.key(path)?;
                let matter = Matter::Save(cache.copy()?, entry.copy()?, writer, outputs.copy()?);
                Ok(Some(Next::Act(matter)))
            }
        }
    }

    fn save_by_saves(&self) -> Result<Option<Next>, Memory>
        requires to_save { reads.KnowsSaving self.now }
        ensures { IfOk result (λ step. step_told step ≡ reads.save_by_saves self.now) }
    {
        match self.job.cache() {
            None => Ok(Some(Next::Get(Key::Caches))),
            Some((saves, _)) => self.save_into(saves),
        }
    }

    fn save_one(&self) -> Result<Option<Next>, Memory>
        requires to_save { reads.KnowsSaving self.now }
        ensures { IfOk result (λ step. step_told step ≡ reads.save_one self.now) }
    {
        if self.asks_save() {
            self.save_by_saves()
        } else {
            Ok(None)
        }
    }

    // A lock that a path holds is released.
    fn release(&self, lock: &LockId, path: &Path) -> Result<Option<Next>, Memory>
        ensures { IfOk result (λ step. step_told step
            ≡ reads.released self.now lock.now path.now) }
    {
        let matter = Matter::Release(lock.copy()?, self.key(path)?);
        Ok(Some(Next::Act(matter)))
    }

    fn release_one(&self) -> Result<Option<Next>, Memory>
        ensures { IfOk result (λ step. step_told step ≡ reads.release_one self.now) }
    {
        let root = Path {
            sels: Sels::new(self.job.workflow().allocator())?,
        };
        self.release_from(&root)
    }

    // The workflow's own lock, whose path is the root's, goes before those of its nodes.
    fn release_from(&self, root: &Path) -> Result<Option<Next>, Memory>
        requires { root.now ≡ path [] }
        ensures { IfOk result (λ step. step_told step ≡ reads.release_one self.now) }
    {
        if let Some(lock) = self.own_held(root) {
            return self.release(lock, root);
        }
        match self.first_kept() {
            None => Ok(None),
            Some((lock, path)) => self.release(lock, path),
        }
    }

    fn resubmit(&self) -> Result<Option<Next>, Memory>
        ensures { IfOk result (λ step. step_told step ≡ reads.resubmit self.now) }
    {
        match self.first_untried(self.document.commands.as_slice())? {
            None => Ok(None),
            Some(resubmission) => Ok(Some(Next::Act(Matter::Submit(resubmission)))),
        }
    }
}
