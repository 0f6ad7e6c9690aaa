//! The change that an act makes: the entry, and the content that it leaves.

ghost use Rattle.std.specs.Prelude.{◌≡◌, ◌+◌, ◌++◌, ◌∷◌, [], false, None, Some, IfOk};
ghost use Rattle.books.specs.declared.LockState.TheVariants.{Holding};
ghost use Rattle.memo_cache.specs.Saving.{save_of};
ghost use Rattle.saves.specs.Saves.{has_saved};
ghost use Rattle.sync_locks.specs.Book.{state_in, with_filed, with_freed};
ghost use Rattle.law.specs.Due as due;
ghost use Rattle.worker_job.specs.Told.{matter_told, resubmission_told};
ghost use Rattle.reconcile_core.specs.Plans.{IsNext, IsPlan, Plans};

use base_types::{Memory, Shared, Text, TryCopy};
use memo_cache::{Cache, SaveRefused};
use next_laws::laws::act_is_new;
use sync_locks::{FileRefused, LockBook, ReleaseRefused};
use tree_types::{Entry, Fact, HolderKey, LockId, Outputs, Path, Rank};
use wf_object::{PodObject, TreeRefused, WfContent};
use worker_job::{Job, Matter, Resubmission};

/// An entry, and what it makes of the object that it is about.
#[derive(Drop)]
pub(crate) struct Plan {
    pub(crate) content: WfContent,
    pub(crate) change: Entry,
}

// The number of the next version. A history so long that there is none has no room for it.
fn next_version(version: u64) -> Result<u64, Memory>
    ensures { IfOk result (λ next. next ≡ version + 1) }
{
    version.checked_add(1).ok_or(Memory)
}

// A fact is written, and behind it the beginnings that close the journal.
fn record(job: &Job, fact: &Fact) -> Result<Plan, TreeRefused>
    requires { IsNext job.now.workflow job.now.views (due.record_fact fact.now) }
    ensures { Plans job.now.workflow job.now.views (due.record_fact fact.now) result }
{
    act_is_new();
    let Some(seen) = job.flow() else {
        unreachable!()
    };
    let Some(object) = seen.content.workflow() else {
        unreachable!()
    };
    let version = next_version(seen.version)?;
    let (next, facts) = object.add(fact.copy()?)?;
    Ok(Plan {
        content: WfContent::of_workflow(next)?,
        change: Entry::Write {
            workflow: job.workflow().copy()?,
            version,
            facts,
        },
    })
}

// The book with one request more. Its key is not there.
fn filed(
    book: &LockBook,
    lock: &LockId,
    key: &HolderKey,
    rank: &Shared<Rank>,
) -> Result<LockBook, Memory>
    requires { state_in key.now book.now.requests ≡ None }
    ensures { IfOk result (λ next. next ≡ with_filed lock.now key.now rank.now book.now) }
{
    let mut next = book.copy()?;
    match next.file(lock.copy()?, key.copy()?, rank.copy()?) {
        Ok(()) => Ok(next),
        Err(FileRefused::Memory) => Err(Memory),
        Err(FileRefused::Known) => unreachable!(),
    }
}

// A request is filed in a copy of the book.
fn file(job: &Job, lock: &LockId, key: &HolderKey, rank: &Shared<Rank>) -> Result<Plan, Memory>
    requires { IsNext job.now.workflow job.now.views (due.file lock.now key.now rank.now) }
    ensures { IfOk result (λ plan. IsPlan job.now.workflow job.now.views
        (due.file lock.now key.now rank.now) plan) }
{
    let Some(seen) = job.book() else {
        unreachable!()
    };
    let Some(book) = seen.content.locks() else {
        unreachable!()
    };
    let next = filed(book, lock, key, rank)?;
    Ok(Plan {
        content: WfContent::of_locks(job.workflow().allocator(), next)?,
        change: Entry::File {
            lock: lock.copy()?,
            key: key.copy()?,
            rank: rank.copy()?,
        },
    })
}

// The book with the request of a key released, which holds.
fn released(book: &LockBook, key: &HolderKey) -> Result<LockBook, Memory>
    requires { state_in key.now book.now.requests ≡ Some Holding }
    ensures { IfOk result (λ next. next ≡ with_freed key.now book.now) }
{
    let mut next = book.copy()?;
    match next.release(key) {
        Ok(()) => Ok(next),
        Err(ReleaseRefused::Memory) => Err(Memory),
        Err(ReleaseRefused::NotHolding) => unreachable!(),
    }
}

// A lock is released in a copy of the book.
fn release(job: &Job, lock: &LockId, key: &HolderKey) -> Result<Plan, Memory>
    requires { IsNext job.now.workflow job.now.views (due.release lock.now key.now) }
    ensures { IfOk result (λ plan. IsPlan job.now.workflow job.now.views
        (due.release lock.now key.now) plan) }
{
    let Some(seen) = job.book() else {
        unreachable!()
    };
    let Some(book) = seen.content.locks() else {
        unreachable!()
    };
    let next = released(book, key)?;
    Ok(Plan {
        content: WfContent::of_locks(job.workflow().allocator(), next)?,
        change: Entry::Release {
            lock: lock.copy()?,
            key: key.copy()?,
        },
    })
}

// The saves with one more. Its writer is not among them.
fn saved(
    saves: &Cache,
    cache: &Text,
    key: &Text,
    writer: &HolderKey,
    outputs: &Shared<Outputs>,
    tick: u64,
) -> Result<Cache, Memory>
    requires { has_saved writer.now saves.now ≡ false }
    ensures { IfOk result (λ next. next
        ≡ saves.now ++ save_of cache.now key.now writer.now outputs.now tick ∷ []) }
{
    let mut next = saves.copy()?;
    match next.save(
        cache.copy()?,
        key.copy()?,
        writer.copy()?,
        outputs.copy()?,
        tick,
    ) {
        Ok(()) => Ok(next),
        Err(SaveRefused::Memory) => Err(Memory),
        Err(SaveRefused::Saved) => unreachable!(),
    }
}

// Outputs are saved in a copy of the saves, at the tick at which these were read.
fn save(
    job: &Job,
    cache: &Text,
    key: &Text,
    writer: &HolderKey,
    outputs: &Outputs,
) -> Result<Plan, Memory>
    requires { IsNext job.now.workflow job.now.views
        (due.save cache.now key.now writer.now outputs.now) }
    ensures { IfOk result (λ plan. IsPlan job.now.workflow job.now.views
        (due.save cache.now key.now writer.now outputs.now) plan) }
{
    let Some(seen) = job.saves() else {
        unreachable!()
    };
    let Some(saves) = seen.content.caches() else {
        unreachable!()
    };
    let outputs = Shared::new(job.workflow().allocator(), outputs.copy()?)?;
    let next = saved(saves, cache, key, writer, &outputs, seen.tick)?;
    Ok(Plan {
        content: WfContent::of_caches(job.workflow().allocator(), next)?,
        change: Entry::Save {
            cache: cache.copy()?,
            key: key.copy()?,
            writer: writer.copy()?,
            outputs,
            tick: seen.tick,
        },
    })
}

// A pod begins at the tick at which the workflow was read.
fn create_pod(job: &Job, path: &Path, node: &Text) -> Result<Plan, Memory>
    requires { IsNext job.now.workflow job.now.views (due.create path.now node.now) }
    ensures { IfOk result (λ plan. IsPlan job.now.workflow job.now.views
        (due.create path.now node.now) plan) }
{
    let Some(seen) = job.flow() else {
        unreachable!()
    };
    Ok(Plan {
        content: WfContent::of_pod(PodObject::begun(path.copy()?, seen.tick)),
        change: Entry::Create {
            workflow: job.workflow().copy()?,
            node: node.copy()?,
            path: path.copy()?,
            begin: seen.tick,
        },
    })
}

// The workflow is submitted anew.
fn resubmit(job: &Job, again: &Resubmission) -> Result<Plan, Memory>
    requires { IsNext job.now.workflow job.now.views (due.submit (resubmission_told again.now)) }
    ensures { IfOk result (λ plan. IsPlan job.now.workflow job.now.views
        (due.submit (resubmission_told again.now)) plan) }
{
    let Some(seen) = job.flow() else {
        unreachable!()
    };
    let Some(object) = seen.content.workflow() else {
        unreachable!()
    };
    let (made, facts) = object.resubmitted(again.name.copy()?, again.created, again.memoized)?;
    Ok(Plan {
        content: WfContent::of_workflow(made)?,
        change: Entry::Submit {
            workflow: again.name.copy()?,
            old: Some(job.workflow().copy()?),
            facts,
        },
    })
}

/// The change of the act that is next. TooLarge exactly where it is a fact that makes too large a tree.
pub(crate) fn planned(job: &Job, matter: &Matter) -> Result<Plan, TreeRefused>
    requires { IsNext job.now.workflow job.now.views (matter_told matter.now) }
    ensures { Plans job.now.workflow job.now.views (matter_told matter.now) result }
{
    match matter {
        Matter::RecordFact(fact) => record(job, fact),
        Matter::File(lock, key, rank) => Ok(file(job, lock, key, rank)?),
        Matter::Create(path, node) => Ok(create_pod(job, path, node)?),
        Matter::Save(cache, key, writer, outputs) => { Ok(save(job, cache, key, writer, outputs)?) }
        Matter::Release(lock, key) => Ok(release(job, lock, key)?),
        Matter::Submit(again) => Ok(resubmit(job, again)?),
    }
}
