//! A list whose copies share it whole until one of them changes.

ghost use Rattle.std.specs.Prelude.{◌≡◌, List as Seq, [], ◌∷◌, ◌++◌, ◌<◌, length, take, replicate, IfOk, OnOk, OnErr, slice_get, slice_set, slice_index_or, option_copied};

use base_types::{Memory, TryCopy};
use std::alloc::Global;
use std::marker::Model;
use std::sync::Arc;

/// A list that its copies share. A change of one of several copies copies the items, which should cost little.
#[derive(Debug, Drop)]
pub struct Row<X> {
    items: Arc<Vec<X>>,
}

impl<X> Model for Row<X> {
    ghost Value = { Seq X };

    ghost view = { λ row. row.items.value.items };
}

impl<X> Row<X> {
    pub fn len(&self) -> usize
        ensures { result ≡ length self.now }
    {
        self.items.len()
    }

    pub fn get(&self, position: usize) -> Option<&X>
        ensures { option_copied result ≡ slice_get self.now position }
    {
        self.items.get(position)
    }

    /// The allocator that the items are on.
    pub fn allocator(&self) -> Global {
        *self.items.allocator()
    }
}

impl<X: TryCopy + Drop> Row<X> {
    pub fn new(alloc: Global) -> Result<Row<X>, Memory>
        ensures { IfOk result (λ row. row ≡ []) }
    {
        Ok(Row {
            items: Arc::new(alloc, Vec::new(alloc))?,
        })
    }

    /// So many copies of one item.
    pub fn filled(alloc: Global, item: &X, count: usize) -> Result<Row<X>, Memory>
        ensures { IfOk result (λ row. row ≡ replicate count item.now) }
    {
        let mut items = Vec::with_capacity(alloc, count)?;
        while items.len() < count {
            items.push(item.copy()?)?;
        }
        Ok(Row {
            items: Arc::new(alloc, items)?,
        })
    }

    // Copies the items if they have another owner.
    fn keep_apart(&mut self) -> Result<(), Memory>
        ensures { self.new ≡ self.old }
    {
        if Arc::strong_count(&self.items) == 1 {
            return Ok(());
        }
        let items = copies(&self.items)?;
        self.items = Arc::new(*items.allocator(), items)?;
        Ok(())
    }

    pub fn push(&mut self, item: X) -> Result<(), Memory>
        ensures ok { OnOk result (self.new ≡ self.old ++ item ∷ []) }
        ensures err { OnErr result (self.new ≡ self.old) }
    {
        self.keep_apart()?;
        match Arc::get_mut(&mut self.items) {
            None => Err(Memory),
            Some(items) => {
                items.push(item)?;
                Ok(())
            }
        }
    }

    /// Replaces the item at a position.
    pub fn set(&mut self, position: usize, item: X) -> Result<(), Memory>
        requires { position < length self.old }
        ensures ok { OnOk result (self.new ≡ slice_set self.old position item) }
        ensures err { OnErr result (self.new ≡ self.old) }
    {
        self.keep_apart()?;
        match Arc::get_mut(&mut self.items) {
            None => Err(Memory),
            Some(items) => {
                items[position] = item;
                Ok(())
            }
        }
    }

    /// Keeps the first so many items.
    pub fn truncate(&mut self, count: usize) -> Result<(), Memory>
        ensures ok { OnOk result (self.new ≡ take count self.old) }
        ensures err { OnErr result (self.new ≡ self.old) }
    {
        self.keep_apart()?;
        match Arc::get_mut(&mut self.items) {
            None => Err(Memory),
            Some(items) => {
                items.truncate(count);
                Ok(())
            }
        }
    }
}

impl<X: TryCopy + Drop> Row<Row<X>> {
    /// Replaces an item of the row at a position.
    pub fn set_in(&mut self, row: usize, position: usize, item: X) -> Result<(), Memory>
        requires row { row < length self.old }
        requires position { position < length (slice_index_or self.old row []) }
        ensures ok { OnOk result (self.new ≡ slice_set self.old row (slice_set (slice_index_or self.old row []) position item)) }
        ensures err { OnErr result (self.new ≡ self.old) }
    {
        self.keep_apart()?;
        match Arc::get_mut(&mut self.items) {
            None => Err(Memory),
            Some(rows) => rows[row].set(position, item),
        }
    }
}

impl<X: TryCopy + Drop> Row<Row<Row<X>>> {
    /// Replaces an item of a row of a row.
    pub(crate) fn set_within(
        &mut self,
        rows: usize,
        row: usize,
        position: usize,
        item: X,
    ) -> Result<(), Memory>
        requires rows { rows < length self.old }
        requires row { row < length (slice_index_or self.old rows []) }
        requires position { position < length (slice_index_or (slice_index_or self.old rows []) row []) }
        ensures ok { OnOk result (self.new ≡ slice_set self.old rows
            (slice_set (slice_index_or self.old rows []) row
            (slice_set (slice_index_or (slice_index_or self.old rows []) row []) position item))) }
        ensures err { OnErr result (self.new ≡ self.old) }
    {
        self.keep_apart()?;
        match Arc::get_mut(&mut self.items) {
            None => Err(Memory),
            Some(all) => all[rows].set_in(row, position, item),
        }
    }
}

fn copies<X: TryCopy + Drop>(items: &Vec<X>) -> Result<Vec<X>, Memory>
    ensures { IfOk result (λ copies. copies.items ≡ items.now.items) }
{
    // A push mostly follows.
    let mut copies = Vec::with_capacity(*items.allocator(), items.len().saturating_add(1))?;
    for item in items {
        copies.push(item.copy()?)?;
    }
    Ok(copies)
}

impl<X: TryCopy + Drop> TryCopy for Row<X> {
    fn copy(&self) -> Result<Row<X>, Memory> {
        Ok(Row {
            items: Arc::try_clone(&self.items)?,
        })
    }
}
