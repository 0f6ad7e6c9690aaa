//! Which paths that hold a lock a step may be about: where a few holders tell, no node is looked for.

ghost use Rattle.std.specs.Prelude.{◌≡◌, ◌&&◌, not, true};
ghost use Rattle.tree_types.specs.Places.{sels_eq};
ghost use Rattle.tree_order.specs.Order.{path_before};
ghost use Rattle.sync_locks.specs.Book as locks;
ghost use Rattle.worker_job.specs.declared.held.Standing.TheVariants as standing;
ghost use Rattle.worker_job.specs.Inside.Held as held;
ghost use Rattle.worker_job.specs.Readings as reads;

use crate::reading::Reading;
use base_types::Text;
use recorded::Recorded;
use sync_locks::{LockBook, PathTest};
use tree_order::is_before;
use tree_types::{Node, Note, Path, Phase, Sel, fulfilled};
use wf_object::WfObject;

// How the node of a path stands that a step is about.
#[derive(Clone, Copy, Debug)]
pub(crate) enum Standing {
    Waiting,
    Over,
}

// What is told of the paths that hold a lock and whose nodes stand so.
#[derive(Clone, Copy)]
pub(crate) enum Held<'a> {
    Nothing,
    One(&'a Path),
    Unknown,
}

// Whether a node waits for a lock.
fn waits(node: &Node) -> bool
    ensures { result ≡ held.waits node.now }
{
    match (node.phase, &node.note) {
        (Phase::Pending, Note::Waiting(_)) => true,
        _ => false,
    }
}

// Whether the node of a path stands so. For the workflow's own lock, whose path is empty, the root may wait.
#[derive(Clone, Copy)]
struct Stands<'a> {
    object: &'a WfObject,
    standing: Standing,
}

impl Stands<'_> {
    // Most that hold were granted, which is told without the node.
    fn is_waiting(&self, path: &Path) -> bool
        ensures { result ≡ held.is_waiting self.now.object.now path.now.sels }
    {
        !self.object.journal().granted(&path.sels) && self.waits(path.sels.as_slice())
    }

    fn waits(&self, path: &[Sel]) -> bool
        ensures { result ≡ held.stands_at held.waits self.now.object.now path.now }
    {
        match self.object.state().node(path) {
            None => false,
            Some(node) => waits(node),
        }
    }

    fn is_over(&self, path: &[Sel]) -> bool
        ensures { result ≡ held.stands_at held.is_over self.now.object.now path.now }
    {
        match self.object.state().node(path) {
            None => false,
            Some(node) => fulfilled(node.phase),
        }
    }

    fn is_such(&self, path: &Path) -> bool
        ensures { result ≡ held.such self.now.standing self.now.object.now path.now }
    {
        match self.standing {
            Standing::Waiting => path.sels.is_empty() || self.is_waiting(path),
            Standing::Over => self.is_over(path.sels.as_slice()),
        }
    }
}

impl PathTest for Stands<'_> {
    ghost accepts = { λ test path. held.such test.standing test.object.now path };

    fn accepts(&self, path: &Path) -> bool {
        self.is_such(path)
    }
}

// The same of a path that is not this one.
#[derive(Clone, Copy)]
struct Others<'a> {
    stands: Stands<'a>,
    path: &'a Path,
}

impl PathTest for Others<'_> {
    ghost accepts = { λ test path. not (sels_eq path.sels test.path.now.sels)
        && held.such test.stands.standing test.stands.object.now path };

    fn accepts(&self, path: &Path) -> bool {
        *path != *self.path && self.stands.is_such(path)
    }
}

// The same of a path that stands before this one.
#[derive(Clone, Copy)]
struct Before<'a> {
    stands: Stands<'a>,
    path: &'a Path,
}

impl PathTest for Before<'_> {
    ghost accepts = { λ test path. path_before path.sels test.path.now.sels
        && held.such test.stands.standing test.stands.object.now path };

    fn accepts(&self, path: &Path) -> bool {
        is_before(path.sels.as_slice(), self.path.sels.as_slice()) && self.stands.is_such(path)
    }
}

// How many times one that stands before those found is looked for: as many as are looked at one by one.
const LOOKS: u32 = 32;

impl<'a> Stands<'a> {
    // The path of a workflow that alone holds and stands so, by the holders of a book, if they are few.
    fn alone_by(&self, book: &'a LockBook, workflow: &Text) -> Held<'a>
        ensures { held.TellsAlone (λ p. locks.is_held (locks.key_by workflow.now p) book.now.requests)
            (held.such self.now.standing self.now.object.now) result }
    {
        if book.has_many_holders() {
            return Held::Unknown;
        }
        match book.find_held(workflow, self) {
            None => Held::Nothing,
            Some(path) => self.alone_beside(book, workflow, path),
        }
    }

    // The same, where a path holds and stands so.
    fn alone_beside(&self, book: &'a LockBook, workflow: &Text, path: &'a Path) -> Held<'a>
        requires holds { locks.is_held (locks.key_by workflow.now path.now) book.now.requests ≡ true }
        requires such { held.such self.now.standing self.now.object.now path.now ≡ true }
        ensures { held.TellsAlone (λ p. locks.is_held (locks.key_by workflow.now p) book.now.requests)
            (held.such self.now.standing self.now.object.now) result }
    {
        let others = Others {
            stands: *self,
            path,
        };
        match book.find_held(workflow, &others) {
            None => Held::One(path),
            Some(_) => Held::Unknown,
        }
    }

    // The first of the paths of a workflow that hold and stand so, by the holders of a book, if they are few.
    fn first_by(&self, book: &'a LockBook, workflow: &Text) -> Held<'a>
        ensures { held.TellsFirst (λ p. locks.is_held (locks.key_by workflow.now p) book.now.requests)
            (held.such self.now.standing self.now.object.now) result }
    {
        if book.has_many_holders() {
            return Held::Unknown;
        }
        match book.find_held(workflow, self) {
            None => Held::Nothing,
            Some(path) => self.first_from(book, workflow, path),
        }
    }

    // The same, where a path holds and stands so: one that stands before it is looked for, and so on.
    fn first_from(&self, book: &'a LockBook, workflow: &Text, path: &'a Path) -> Held<'a>
        requires holds { locks.is_held (locks.key_by workflow.now path.now) book.now.requests ≡ true }
        requires such { held.such self.now.standing self.now.object.now path.now ≡ true }
        ensures { held.TellsFirst (λ p. locks.is_held (locks.key_by workflow.now p) book.now.requests)
            (held.such self.now.standing self.now.object.now) result }
    {
        let mut first = path;
        for _ in 0..LOOKS {
            let before = Before {
                stands: *self,
                path: first,
            };
            match book.find_held(workflow, &before) {
                None => return Held::One(first),
                Some(path) => first = path,
            }
        }
        Held::Unknown
    }
}

impl<'a> Reading<'a> {
    // The path of this workflow that alone holds a lock, by the view of the book, and has a node that waits. This is told where no
    // more requests hold than are looked at one by one.
    pub(crate) fn held_waiting(&self) -> Held<'a>
        ensures { held.TellsAlone (reads.is_held self.now) (held.such standing.Waiting self.now.object.now) result }
    {
        match self.job.locks() {
            None => Held::Nothing,
            Some(book) => {
                let stands = Stands {
                    object: self.object,
                    standing: Standing::Waiting,
                };
                stands.alone_by(book, self.job.workflow())
            }
        }
    }

    // The first of its paths that hold a lock and have a node that is over. This is told where no more requests hold than are
    // looked at one by one.
    pub(crate) fn held_over(&self) -> Held<'a>
        ensures { held.TellsFirst (reads.is_held self.now) (held.such standing.Over self.now.object.now) result }
    {
        match self.job.locks() {
            None => Held::Nothing,
            Some(book) => {
                let stands = Stands {
                    object: self.object,
                    standing: Standing::Over,
                };
                stands.first_by(book, self.job.workflow())
            }
        }
    }
}
