//! Rows of items, in blocks of 64.

ghost use Rattle.std.specs.Prelude.{◌≡◌, List as Seq, [], ◌∷◌, ◌++◌, ◌<◌, length, take, replicate, IfOk, OnOk, OnErr, slice_get, slice_set, slice_index_or, option_copied};
ghost use Rattle.sharing.specs.Inside.Chunks.{room, items_of, IsChunked};

use crate::Row;
use base_types::{Memory, TryCopy};
use std::alloc::Global;
use std::marker::Model;

/// How many items a chunk has, and how many chunks a block has.
pub(crate) const ROOM: usize = 64;

/// Chunks that other blocks may share.
type Block<X> = Row<Row<X>>;

/// Chunks in blocks, the last of which may have room.
#[derive(Debug, Drop)]
pub(crate) struct Chunks<X> {
    full: Row<Block<X>>,
    last: Block<X>,
}

impl<X> Model for Chunks<X> {
    ghost use Rattle.std.specs.Prelude.{List as Seq};
    ghost use Rattle.sharing.specs.Inside.Chunks.{items_of, IsChunked};

    ghost Value = { Seq (Seq X) };

    ghost view = { λ chunks. items_of chunks.full chunks.last };

    ghost invariant = { λ chunks. IsChunked chunks.full chunks.last };
}

impl<X> Chunks<X> {
    pub(crate) fn get(&self, position: usize) -> Option<&Row<X>>
        ensures { option_copied result ≡ slice_get self.now position }
    {
        let full = self.full.len();
        match self.full.get(position / ROOM) {
            None => self.last.get(position - full * ROOM),
            Some(block) => block.get(position % ROOM),
        }
    }
}

impl<X: TryCopy + Drop> Chunks<X> {
    pub(crate) fn new(alloc: Global) -> Result<Chunks<X>, Memory>
        ensures { IfOk result (λ chunks. chunks ≡ []) }
    {
        Ok(Chunks {
            full: Row::new(alloc)?,
            last: Row::new(alloc)?,
        })
    }

    /// One chunk so many times.
    pub(crate) fn filled(alloc: Global, chunk: &Row<X>, count: usize) -> Result<Chunks<X>, Memory>
        ensures { IfOk result (λ chunks. chunks ≡ replicate count chunk.now) }
    {
        let block = Row::filled(alloc, chunk, ROOM)?;
        Ok(Chunks {
            full: Row::filled(alloc, &block, count / ROOM)?,
            last: Row::filled(alloc, chunk, count % ROOM)?,
        })
    }

    pub(crate) fn push(&mut self, chunk: Row<X>) -> Result<(), Memory>
        ensures ok { OnOk result (self.new ≡ self.old ++ chunk ∷ []) }
        ensures err { OnErr result (self.new ≡ self.old) }
    {
        make_room(&mut self.full, &mut self.last)?;
        self.last.push(chunk)?;
        Ok(())
    }

    /// Replaces an item of the chunk at a position.
    pub(crate) fn set_in(&mut self, chunk: usize, position: usize, item: X) -> Result<(), Memory>
        requires chunk { chunk < length self.old }
        requires position { position < length (slice_index_or self.old chunk []) }
        ensures ok { OnOk result (self.new
            ≡ slice_set self.old chunk (slice_set (slice_index_or self.old chunk []) position item)) }
        ensures err { OnErr result (self.new ≡ self.old) }
    {
        let block = chunk / ROOM;
        let full = self.full.len();
        if block < full {
            self.full.set_within(block, chunk % ROOM, position, item)?;
        } else {
            self.last.set_in(chunk - full * ROOM, position, item)?;
        }
        Ok(())
    }

    /// Keeps the first so many chunks.
    pub(crate) fn truncate(&mut self, count: usize) -> Result<(), Memory>
        ensures ok { OnOk result (self.new ≡ take count self.old) }
        ensures err { OnErr result (self.new ≡ self.old) }
    {
        let full = self.full.len();
        match self.full.get(count / ROOM) {
            None => {
                self.last.truncate(count - full * ROOM)?;
                Ok(())
            }
            Some(last) => {
                let mut last = last.copy()?;
                last.truncate(count % ROOM)?;
                self.full.truncate(count / ROOM)?;
                self.last = last;
                Ok(())
            }
        }
    }
}

impl<X: TryCopy + Drop> TryCopy for Chunks<X> {
    fn copy(&self) -> Result<Chunks<X>, Memory> {
        Ok(Chunks {
            full: self.full.copy()?,
            last: self.last.copy()?,
        })
    }
}

// Makes room in the last block: where it is full, it goes to the others, and an empty one comes in its place.
fn make_room<X: TryCopy + Drop>(full: &mut Row<Block<X>>, last: &mut Block<X>) -> Result<(), Memory>
    requires { IsChunked full.old last.old }
    ensures chunked { IsChunked full.new last.new }
    ensures same { items_of full.new last.new ≡ items_of full.old last.old }
    ensures has_room { OnOk result (length last.new < room) }
{
    if last.len() < ROOM {
        return Ok(());
    }
    let empty = Row::new(last.allocator())?;
    full.push(last.copy()?)?;
    *last = empty;
    Ok(())
}
