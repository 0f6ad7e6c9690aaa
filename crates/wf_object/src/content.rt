//! The contents of the store's objects.

ghost use Rattle.std.specs.Prelude.{◌≡◌, IfOk, Some, option_copied, option_map};
ghost use Rattle.law.specs.Contents.{OfWorkflow, OfPod, OfLocks, OfCaches, flow_in, pod_in, apply};
ghost use Rattle.wf_object.specs.Kept.{law_book, locks_in, caches_in, makes, begins, justified};

use crate::following::{book_after, caches_after, object_after, pod_after};
use crate::{PodObject, WfObject};
use base_types::{Memory, Shared, TryCopy};
use memo_cache::Cache;
use object_store::Content;
use std::alloc::Global;
use std::marker::Model;
use sync_locks::LockBook;
use tree_types::Entry;
use wf_bundle::Document;

/// What the store keeps under a key: a workflow, a pod, the lock book, or the caches. Contracts see it as the law has it.
pub struct WfContent {
    held: Held,
}

// Of most objects, which are pods, there are two versions, so that all but a pod is kept apart.
#[derive(Drop)]
enum Held {
    Workflow(Shared<WfObject>),
    Pod(PodObject),
    Locks(Shared<LockBook>),
    Caches(Shared<Cache>),
}

// Written out, so that proofs about code that drops a content see one call.
impl Drop for WfContent {
    fn drop(self) {
        let WfContent { held: _ } = self;
    }
}

impl Model for WfContent {
    ghost use Rattle.law.specs.Contents.{Content as Kept};
    ghost use Rattle.wf_object.specs.ContentCode.{content_code};

    ghost Value = { Kept };

    ghost coded = { content_code };

    ghost use Rattle.wf_object.specs.Inside.Helds.{content_of};

    ghost view = { λ content. content_of content.held };
}

impl WfContent {
    pub fn of_workflow(object: WfObject) -> Result<WfContent, Memory>
        ensures { IfOk result (λ content. content ≡ OfWorkflow object) }
    {
        let alloc = object.manifest().name.allocator();
        Ok(WfContent {
            held: Held::Workflow(Shared::new(alloc, object)?),
        })
    }

    pub fn of_pod(pod: PodObject) -> WfContent
        ensures { result ≡ OfPod pod }
    {
        WfContent {
            held: Held::Pod(pod),
        }
    }

    pub fn of_locks(alloc: Global, book: LockBook) -> Result<WfContent, Memory>
        ensures { IfOk result (λ content. content ≡ OfLocks (law_book book)) }
    {
        Ok(WfContent {
            held: Held::Locks(Shared::new(alloc, book)?),
        })
    }

    pub fn of_caches(alloc: Global, cache: Cache) -> Result<WfContent, Memory>
        ensures { IfOk result (λ content. content ≡ OfCaches cache) }
    {
        Ok(WfContent {
            held: Held::Caches(Shared::new(alloc, cache)?),
        })
    }

    /// The workflow, where it is one.
    pub fn workflow(&self) -> Option<&WfObject>
        ensures { option_copied result ≡ flow_in (Some self.now) }
    {
        match &self.held {
            Held::Workflow(object) => Some(object.value()),
            _ => None,
        }
    }

    /// The pod, where it is one.
    pub fn pod(&self) -> Option<&PodObject>
        ensures { option_copied result ≡ pod_in (Some self.now) }
    {
        match &self.held {
            Held::Pod(pod) => Some(pod),
            _ => None,
        }
    }

    /// The lock book, where it is that.
    pub fn locks(&self) -> Option<&LockBook>
        ensures { option_map (λ book. law_book book.now) result ≡ locks_in (Some self.now) }
    {
        match &self.held {
            Held::Locks(book) => Some(book.value()),
            _ => None,
        }
    }

    /// The caches, where it is those.
    pub fn caches(&self) -> Option<&Cache>
        ensures { option_copied result ≡ caches_in (Some self.now) }
    {
        match &self.held {
            Held::Caches(cache) => Some(cache.value()),
            _ => None,
        }
    }
}

impl Content for WfContent {
    type Law = Document;

    ghost makes = { makes };

    ghost apply = { apply };

    ghost begins = { begins };

    ghost justified = { justified };

    fn copy(&self) -> Result<WfContent, Memory> {
        Ok(WfContent {
            held: match &self.held {
                Held::Workflow(object) => Held::Workflow(object.copy()?),
                Held::Pod(pod) => Held::Pod(pod.copy()?),
                Held::Locks(book) => Held::Locks(book.copy()?),
                Held::Caches(cache) => Held::Caches(cache.copy()?),
            },
        })
    }

    // Where what follows cannot be kept, as a workflow with too large a tree, a second filing of a key or a release of what
    // nobody holds, the answer is that of missing memory. No such entry is justified.
    fn after(&self, change: &Entry) -> Result<WfContent, Memory> {
        match &self.held {
            Held::Workflow(object) => object_after(object.value(), change),
            Held::Pod(pod) => pod_after(pod, change),
            Held::Locks(book) => book_after(book.value(), change),
            Held::Caches(cache) => caches_after(cache.value(), change),
        }
    }
}
