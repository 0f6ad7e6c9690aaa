//! The lock book. Its functions call the laws of `books`, which do nothing, for what they say.

use crate::asked::Asked;
use crate::limit::limit_of;
use crate::question::PathTest;
use crate::refused::{FileRefused, ReleaseRefused};
use crate::requests::{Requests, new_state};
use base_types::{Memory, Shared, Text, TryCopy};
use books::{LockState, laws};
use std::marker::Model;
use std::sync::Arc;
use tree_types::{HolderKey, Limits, LockId, Path, Rank};

/// Requests for locks in order of filing, which contracts see with the limits. No waiter's lock has room, no lock has more
/// holders than its limit, and each key has at most one request.
pub struct LockBook {
    limits: Arc<Limits>,
    requests: Requests,
}

// Written out, so that proofs about code that drops a book see one call.
impl Drop for LockBook {
    fn drop(self) {
        let LockBook {
            limits: _,
            requests: _,
        } = self;
    }
}

impl Model for LockBook {
    ghost use Rattle.sync_locks.specs.Book.{Book};

    ghost Value = { Book };

    ghost use Rattle.books.specs.Laws.{IsWellKept};

    ghost view = { λ book. record { limits = book.limits.value; requests = book.requests } };

    ghost invariant = { λ book. IsWellKept book.limits.value book.requests };
}

impl LockBook {
    ghost use Rattle.std.specs.Prelude.{◌≡◌, ◌↔◌, ◌≤◌, IsErrOf, IfOk, OnOk, OnErr, IsSome, IsTrue, MatchOption, option_map, true, false};
    ghost use Rattle.tree_types.specs.declared.path.Path.{Path as Place};
    ghost use Rattle.books.specs.Books as books;
    ghost use Rattle.books.specs.Laws.{IsWellKept};
    ghost use Rattle.sync_locks.specs.Book.{unfilled, with_filed, with_freed, state_in, is_held, has_many_holders, may_hold, key_by, standing_of, place_of, is_filed_at};

    /// The book without requests.
    pub fn new(limits: Limits) -> Result<LockBook, Memory>
        ensures { IfOk result (λ book. book ≡ unfilled limits) }
    {
        laws::stays_well_kept();
        let alloc = limits.allocator();
        Ok(LockBook {
            limits: Arc::new(alloc, limits)?,
            requests: Requests::new(alloc)?,
        })
    }

    /// Files a request for a lock, which holds at once where the lock has room, and waits else.
    pub fn file(
        &mut self,
        lock: LockId,
        key: HolderKey,
        rank: Shared<Rank>,
    ) -> Result<(), FileRefused>
        ensures known { IsErrOf result FileRefused.Known ↔ IsSome (state_in key self.old.requests) }
        ensures ok { OnOk result (self.new ≡ with_filed lock key rank self.old) }
        ensures err { OnErr result (self.new ≡ self.old) }
    {
        laws::stays_well_kept();
        laws::files_once();
        match self.requests.state_in(&key) {
            Some(_) => Err(FileRefused::Known),
            None => {
                let holders = self.requests.holders_of(&lock);
                let state = new_state(holders, limit_of(&self.limits, &lock));
                self.requests.add(Asked { lock, key, rank }, state)?;
                Ok(())
            }
        }
    }

    /// Releases the lock that a key holds. It goes to the first of its waiters.
    pub fn release(&mut self, key: &HolderKey) -> Result<(), ReleaseRefused>
        ensures not_holding { IsErrOf result ReleaseRefused.NotHolding
            ↔ ¬ (state_in key.now self.old.requests ≡ Some LockState.Holding) }
        ensures ok { OnOk result (self.new ≡ with_freed key.now self.old) }
        ensures err { OnErr result (self.new ≡ self.old) }
    {
        laws::stays_well_kept();
        laws::releases_once();
        match self.requests.holder_of(key) {
            None => Err(ReleaseRefused::NotHolding),
            Some(place) => {
                self.requests.release(place)?;
                Ok(())
            }
        }
    }

    /// How the request of a key stands.
    pub fn state(&self, key: &HolderKey) -> Option<LockState>
        ensures { result ≡ state_in key.now self.now.requests }
    {
        self.requests.state_in(key)
    }

    /// Whether the request of a path of a workflow holds its lock. Where few requests hold, it looks at those alone.
    pub fn holds(&self, workflow: &Text, path: &Path) -> bool
        ensures { result ≡ is_held (key_by workflow.now path.now) self.now.requests }
    {
        self.requests.holds(workflow, path)
    }

    /// Whether a request of a workflow holds its lock, or more hold than it looks at. Where neither is so, no path of the
    /// workflow holds a lock.
    pub fn may_hold(&self, workflow: &Text) -> bool
        ensures is { result ≡ may_hold workflow.now self.now.requests }
        ensures none { result ≡ false → (path : Place) → is_held (key_by workflow.now path) self.now.requests ≡ false }
    {
        self.requests.may_hold(workflow)
    }

    /// A path of a workflow that holds its lock and passes a test. Where several do it is any of them. It looks at all that hold.
    pub fn find_held<T: PathTest>(&self, workflow: &Text, test: &T) -> Option<&Path>
        ensures { MatchOption result
            ((path : Place) → is_held (key_by workflow.now path) self.now.requests ≡ true → T.accepts test.now path ≡ false)
            (λ path. (is_held (key_by workflow.now path.now) self.now.requests ≡ true) × (T.accepts test.now path.now ≡ true)) }
    {
        self.requests.find_held(workflow, test)
    }

    /// Whether more requests hold their locks than are looked at one by one.
    pub fn has_many_holders(&self) -> bool
        ensures { result ≡ has_many_holders self.now.requests }
    {
        self.requests.has_many_holders()
    }

    /// Which lock a path of a workflow asked for, and how its request stands.
    pub fn standing(&self, workflow: &Text, path: &Path) -> Option<(&LockId, LockState)>
        ensures { option_map (λ s. (s.0.now, s.1)) result
            ≡ standing_of (key_by workflow.now path.now) self.now.requests }
    {
        self.requests.standing_of(workflow, path)
    }

    /// Where the request of a path of a workflow stands in the order of filing, from 0.
    pub fn place(&self, workflow: &Text, path: &Path) -> Option<usize>
        ensures { result ≡ place_of (key_by workflow.now path.now) self.now.requests }
    {
        self.requests.find(workflow, path)
    }

    /// Whether the request at a place in the order of filing is of a path of a workflow. It looks at that one alone.
    pub fn is_filed_at(&self, place: usize, workflow: &Text, path: &Path) -> bool
        ensures is { result ≡ is_filed_at place (key_by workflow.now path.now) self.now.requests }
        ensures known { IsTrue result → IsSome (state_in (key_by workflow.now path.now) self.now.requests) }
    {
        self.requests.is_by(place, workflow, path)
    }

    /// How many hold a lock.
    pub fn holders(&self, lock: &LockId) -> u64
        ensures count { result ≡ books.holders lock.now.text self.now.requests }
        ensures within { result ≤ books.limit_of self.now.limits lock.now.text }
    {
        self.requests.holders_of(lock)
    }

    /// What every book keeps. It does nothing.
    pub fn well_kept(&self)
        ensures { IsWellKept self.now.limits self.now.requests }
    {
        let _ = &self.requests;
    }
}

impl TryCopy for LockBook {
    /// An equal book, which shares what was asked for.
    fn copy(&self) -> Result<LockBook, Memory> {
        Ok(LockBook {
            limits: Arc::try_clone(&self.limits)?,
            requests: self.requests.share()?,
        })
    }
}
