//! A list whose copies share what they have in common.

ghost use Rattle.std.specs.Prelude.{◌≡◌, List as Seq, [], ◌∷◌, ◌++◌, ◌<◌, length, take, replicate, IfOk, OnOk, OnErr, slice_get, slice_set, option_copied};
ghost use Rattle.sharing.specs.Inside.Chunks.{room, items_of, IsChunked};

use crate::chunks::{Chunks, ROOM};
use crate::{Row, Shared};
use base_types::{Memory, TryCopy};
use std::alloc::Global;
use std::marker::Model;

/// Items that other chunks may share.
type Chunk<T> = Row<Shared<T>>;

/// A list whose copies share what they have in common, and that contracts see as its items. A change copies at most one
/// chunk of 64 items, one block of 64 chunks and the list of the blocks, and no item.
#[derive(Debug, Drop)]
pub struct SharedList<T> {
    full: Chunks<Shared<T>>,
    last: Chunk<T>,
    len: usize,
}

impl<T> Model for SharedList<T> {
    ghost use Rattle.std.specs.Prelude.{List as Seq};
    ghost use Rattle.sharing.specs.Inside.Chunks.{items_of, IsKept};

    ghost Value = { Seq T };

    ghost view = { λ list. items_of list.full list.last };

    ghost invariant = { λ list. IsKept list.full list.last list.len };
}

impl<T> SharedList<T> {
    pub fn len(&self) -> usize
        ensures { result ≡ length self.now }
    {
        self.len
    }

    /// The item at a position from 0.
    pub fn get(&self, position: usize) -> Option<&T>
        ensures { option_copied result ≡ slice_get self.now position }
    {
        match self.item(position) {
            None => None,
            Some(item) => Some(item.value()),
        }
    }

    /// The item at a position from 0, for another list to share.
    pub fn item(&self, position: usize) -> Option<&Shared<T>>
        ensures { option_copied result ≡ slice_get self.now position }
    {
        let before = self.len - self.last.len();
        match self.full.get(position / ROOM) {
            None => self.last.get(position - before),
            Some(chunk) => chunk.get(position % ROOM),
        }
    }

    /// The allocator that the list is on.
    pub fn allocator(&self) -> Global {
        self.last.allocator()
    }
}

impl<T: Drop> SharedList<T> {
    pub fn new(alloc: Global) -> Result<SharedList<T>, Memory>
        ensures { IfOk result (λ list. list ≡ []) }
    {
        Ok(SharedList {
            full: Chunks::new(alloc)?,
            last: Row::new(alloc)?,
            len: 0,
        })
    }

    /// One item so many times, which all places share.
    pub fn filled(alloc: Global, item: T, count: usize) -> Result<SharedList<T>, Memory>
        ensures { IfOk result (λ list. list ≡ replicate count item) }
    {
        let item = Shared::new(alloc, item)?;
        let chunk = Row::filled(alloc, &item, ROOM)?;
        Ok(SharedList {
            full: Chunks::filled(alloc, &chunk, count / ROOM)?,
            last: Row::filled(alloc, &item, count % ROOM)?,
            len: count,
        })
    }

    /// The same list, at a cost that does not grow with it.
    pub fn share(&self) -> Result<SharedList<T>, Memory>
        ensures { IfOk result (λ list. list ≡ self.now) }
    {
        Ok(SharedList {
            full: self.full.copy()?,
            last: self.last.copy()?,
            len: self.len,
        })
    }

    /// Adds an item at the end. Where there is no memory, the item is dropped.
    pub fn push(&mut self, item: T) -> Result<(), Memory>
        ensures ok { OnOk result (self.new ≡ self.old ++ item ∷ []) }
        ensures err { OnErr result (self.new ≡ self.old) }
    {
        let item = Shared::new(self.allocator(), item)?;
        self.push_shared(item)
    }

    /// Adds an item that other lists may have.
    pub fn push_shared(&mut self, item: Shared<T>) -> Result<(), Memory>
        ensures ok { OnOk result (self.new ≡ self.old ++ item ∷ []) }
        ensures err { OnErr result (self.new ≡ self.old) }
    {
        if self.len == usize::MAX {
            return Err(Memory);
        }
        make_room(&mut self.full, &mut self.last)?;
        self.last.push(item)?;
        self.len += 1;
        Ok(())
    }

    /// Replaces the item at a position. Where there is no memory, the new item is dropped.
    pub fn set(&mut self, position: usize, item: T) -> Result<(), Memory>
        requires { position < length self.old }
        ensures ok { OnOk result (self.new ≡ slice_set self.old position item) }
        ensures err { OnErr result (self.new ≡ self.old) }
    {
        let item = Shared::new(self.allocator(), item)?;
        let before = self.len - self.last.len();
        if position < before {
            self.full.set_in(position / ROOM, position % ROOM, item)?;
        } else {
            self.last.set(position - before, item)?;
        }
        Ok(())
    }

    /// Keeps the first so many items.
    pub fn truncate(&mut self, count: usize) -> Result<(), Memory>
        ensures ok { OnOk result (self.new ≡ take count self.old) }
        ensures err { OnErr result (self.new ≡ self.old) }
    {
        if count >= self.len {
            return Ok(());
        }
        let before = self.len - self.last.len();
        match self.full.get(count / ROOM) {
            None => {
                self.last.truncate(count - before)?;
                self.len = count;
                Ok(())
            }
            Some(last) => {
                let mut last = last.copy()?;
                last.truncate(count % ROOM)?;
                self.full.truncate(count / ROOM)?;
                self.last = last;
                self.len = count;
                Ok(())
            }
        }
    }
}

// Makes room in the last chunk: where it is full, it goes to the others, and an empty one comes in its place.
fn make_room<T: Drop>(full: &mut Chunks<Shared<T>>, last: &mut Chunk<T>) -> Result<(), Memory>
    requires { IsChunked full.old last.old }
    ensures chunked { IsChunked full.new last.new }
    ensures same { items_of full.new last.new ≡ items_of full.old last.old }
    ensures has_room { OnOk result (length last.new < room) }
{
    if last.len() < ROOM {
        return Ok(());
    }
    let empty = Row::new(last.allocator())?;
    full.push(last.copy()?)?;
    *last = empty;
    Ok(())
}

impl<T: Drop> TryCopy for SharedList<T> {
    fn copy(&self) -> Result<SharedList<T>, Memory> {
        self.share()
    }
}
