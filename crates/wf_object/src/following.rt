//! What follows from a content by an entry.

ghost use Rattle.std.specs.Prelude.{◌≡◌, Some, IsSome, IfOk};
ghost use Rattle.law.specs.Contents as law;
ghost use Rattle.wf_object.specs.Kept.{law_book};

use crate::{PodObject, WfContent, WfObject};
use base_types::{Memory, TryCopy};
use memo_cache::Cache;
use sync_locks::LockBook;
use tree_types::Entry;

pub fn object_after(object: &WfObject, change: &Entry) -> Result<WfContent, Memory>
    requires { IsSome (law.flow_after object.now change.now) }
    ensures { IfOk result (λ next. law.flow_after object.now change.now ≡ Some next) }
{
    match change {
        Entry::Write {
            workflow: _,
            version: _,
            facts,
        } => match object.with(facts) {
            Ok(next) => Ok(WfContent::of_workflow(next)?),
            Err(_) => Err(Memory),
        },
        _ => unreachable!(),
    }
}

pub fn pod_after(pod: &PodObject, change: &Entry) -> Result<WfContent, Memory>
    requires { IsSome (law.pod_after pod.now change.now) }
    ensures { IfOk result (λ next. law.pod_after pod.now change.now ≡ Some next) }
{
    match change {
        Entry::Finish {
            workflow: _,
            node: _,
            outcome,
        } => Ok(WfContent::of_pod(pod.finished(outcome.copy()?)?)),
        _ => unreachable!(),
    }
}

pub fn book_after(book: &LockBook, change: &Entry) -> Result<WfContent, Memory>
    requires { IsSome (law.book_after (law_book book.now) change.now) }
    ensures { IfOk result (λ next. law.book_after (law_book book.now) change.now ≡ Some next) }
{
    let mut next = book.copy()?;
    match change {
        Entry::File { lock, key, rank } => {
            match next.file(lock.copy()?, key.copy()?, rank.copy()?) {
                Ok(()) => Ok(WfContent::of_locks(lock.text.allocator(), next)?),
                Err(_) => Err(Memory),
            }
        }
        Entry::Release { lock: _, key } => match next.release(key) {
            Ok(()) => Ok(WfContent::of_locks(key.workflow.allocator(), next)?),
            Err(_) => Err(Memory),
        },
        _ => unreachable!(),
    }
}

pub fn caches_after(cache: &Cache, change: &Entry) -> Result<WfContent, Memory>
    requires { IsSome (law.saves_after cache.now change.now) }
    ensures { IfOk result (λ next. law.saves_after cache.now change.now ≡ Some next) }
{
    match change {
        Entry::Save {
            cache: name,
            key,
            writer,
            outputs,
            tick,
        } => {
            let mut next = cache.copy()?;
            match next.save(
                name.copy()?,
                key.copy()?,
                writer.copy()?,
                outputs.copy()?,
                *tick,
            ) {
                Ok(()) => Ok(WfContent::of_caches(name.allocator(), next)?),
                Err(_) => Err(Memory),
            }
        }
        _ => unreachable!(),
    }
}
