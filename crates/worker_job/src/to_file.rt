//! Which locks are to be filed, and whether a workflow asks for none of them.

ghost use Rattle.std.specs.Prelude.{◌≡◌, IsTrue, IsSome};
ghost use Rattle.sync_locks.specs.Book.{state_in, key_by};
ghost use Rattle.law.specs.Justified.{wants_of};
ghost use Rattle.worker_job.specs.Inside.Filing as filing;
ghost use Rattle.worker_job.specs.Inside.Filing.{NoneUnknown};

use base_types::Text;
use sync_locks::LockBook;
use tree_incr::{WantKind, WantTest};
use tree_types::{Path, Sel, Want};
use wf_object::WfObject;

// Where one request of a workflow was filed, and its item: those of a loop are mostly filed in a row, so that the others are
// not looked for.
#[derive(Clone, Copy)]
pub(crate) struct Near {
    place: usize,
    item: usize,
}

// The item of a path that ends with one, and else 0.
fn item_of(path: &Path) -> usize {
    match path.sels.as_slice().last() {
        Some(Sel::Item(item)) => *item as usize,
        _ => 0,
    }
}

impl Near {
    // Where the request of a path was likely filed. Whatever it is, no answer turns on it.
    fn place_of(self, path: &Path) -> usize {
        self.place
            .saturating_add(item_of(path))
            .saturating_sub(self.item)
    }

    // Where the first lock that a workflow asks for was filed.
    pub(crate) fn first(workflow: &Text, book: &LockBook, object: &WfObject) -> Option<Near> {
        match object.state().first_want(WantKind::Lock) {
            Some(Want::Lock(path, _)) => match book.place(workflow, path) {
                None => None,
                Some(place) => Some(Near {
                    place,
                    item: item_of(path),
                }),
            },
            _ => None,
        }
    }
}

// A workflow's name, the book, and where its requests likely stand there.
#[derive(Clone, Copy)]
pub(crate) struct ToFile<'a> {
    pub(crate) workflow: &'a Text,
    pub(crate) book: &'a LockBook,
    pub(crate) near: Option<Near>,
}

impl ToFile<'_> {
    // Whether a want is for a lock whose request the book does not know.
    fn is_unknown(&self, want: &Want) -> bool
        ensures { result ≡ filing.is_unknown self.now.workflow.now self.now.book.now.requests want.now }
    {
        let Want::Lock(path, _) = want else {
            return false;
        };
        if self.is_near(path) {
            return false;
        }
        self.book.standing(self.workflow, path).is_none()
    }

    // Whether the request of a path was filed where it likely was.
    fn is_near(&self, path: &Path) -> bool
        ensures { IsTrue result → IsSome (state_in (key_by self.now.workflow.now path.now) self.now.book.now.requests) }
    {
        match self.near {
            None => false,
            Some(near) => self
                .book
                .is_filed_at(near.place_of(path), self.workflow, path),
        }
    }

    // Whether a workflow asks for none.
    pub(crate) fn is_done(&self, object: &WfObject) -> bool
        ensures { IsTrue result →
            NoneUnknown self.now.workflow.now self.now.book.now.requests (wants_of object.now) }
    {
        object.state().find_want(WantKind::Lock, self).is_none()
    }
}

impl WantTest for ToFile<'_> {
    ghost accepts = { λ test want. filing.is_unknown test.workflow.now test.book.now.requests want };

    fn accepts(&self, want: &Want) -> bool {
        self.is_unknown(want)
    }
}
