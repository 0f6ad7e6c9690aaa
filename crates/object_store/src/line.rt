//! The versions of one object, of which few are kept.

ghost use Rattle.std.specs.Prelude.{◌≡◌, ◌+◌, ◌-◌, ◌<◌, ◌≤◌, ◌++◌, List, [], ◌∷◌, length, slice_get, Some, OnOk, OnErr, vec_len, vec_capacity};

use base_types::Memory;
use std::alloc::Global;
use std::marker::Model;
use std::mem;
use tree_types::{Entries, Entry};

// So many versions are a row. The last row is kept whole. An old version of a workflow holds an old tree, so of all rows
// before it two versions are kept. A reader rarely lags by more than a few versions, so the first of the row before the
// last is near for it; one that lags further costs the entries since the very first version.
const ROW: usize = 16;

/// A version of an object: its content, and the clock when it was made.
#[derive(Debug, Drop)]
pub struct Made<C> {
    pub content: C,
    pub tick: u64,
}

/// How a version came from the one before it: by the entry at this place among the entries, at this tick.
#[derive(Clone, Copy)]
pub(crate) struct Change {
    pub(crate) place: usize,
    pub(crate) tick: u64,
}

/// The versions of an object, oldest first, numbered by their positions from 0. There is a first one always.
#[derive(Drop)]
pub(crate) struct Line<C> {
    // The very first version of all, and the first of the row before the last, as far as they lie before the last row.
    rows: Vec<Made<C>>,
    // The first version of the last row lies here, so that an object with one version has no memory of its own.
    first: Made<C>,
    // The others of the last row.
    later: Vec<Made<C>>,
    // How each version but the very first came.
    changes: Vec<Change>,
}

// Room for one more. Most objects are pods, which are made and then finish, so they have one version behind their first,
// and the first room is for one.
fn reserve_one<T>(items: &mut Vec<T>) -> Result<(), Memory>
    ensures same { items.new.items ≡ items.old.items }
    ensures room { OnOk result (vec_len items.new < vec_capacity items.new) }
{
    if items.is_empty() {
        items.try_reserve_exact(1)?;
    } else {
        items.try_reserve(1)?;
    }
    Ok(())
}

impl<C> Model for Line<C> {
    ghost use Rattle.std.specs.Prelude.{◌≡◌};
    ghost use Rattle.object_store.specs.Inside.Rows.{Rows};

    ghost Value = { Rows C };

    ghost use Rattle.object_store.specs.Inside.Rows.{IsRowed};

    ghost view = { λ l. record {
      rows = l.rows.items;
      first = l.first;
      later = l.later.items;
      changes = l.changes.items;
    } };

    ghost invariant = { λ l. IsRowed l.rows.items l.later.items l.changes.items };
}

impl<C> Line<C> {
    ghost use Rattle.object_store.specs.Inside.Rows.{row_size, last_start, fresh, StandsIn};

    /// The versions of an object that was made just now.
    pub(crate) fn new(alloc: Global, made: Made<C>) -> Self
        ensures { result ≡ fresh made }
    {
        Line {
            rows: Vec::new(alloc),
            first: made,
            later: Vec::new(alloc),
            changes: Vec::new(alloc),
        }
    }

    /// How many versions they are, which is the number of the last.
    pub(crate) fn count(&self) -> u64
        ensures { result ≡ length self.now.changes + 1 }
    {
        self.changes.len() as u64 + 1
    }

    /// The last version.
    pub(crate) fn last(&self) -> &Made<C>
        ensures { (ms : List (Made C)) → StandsIn self.now ms →
            slice_get ms (length self.now.changes) ≡ Some result.now }
    {
        self.later.last().unwrap_or(&self.first)
    }

    /// The version at a position, or the nearest before it that is kept, with its own position. In the last row and the
    /// row before it that is less than a row away.
    pub(crate) fn nearest(&self, at: usize) -> (usize, &Made<C>)
        requires within { at ≤ length self.now.changes }
        ensures before { result.0 ≤ at }
        ensures near { last_start self.now ≤ at + row_size → at < result.0 + row_size }
        ensures stands { (ms : List (Made C)) → StandsIn self.now ms →
            slice_get ms result.0 ≡ Some result.1.now }
    {
        let last_row = self.changes.len() - self.later.len();
        if at > last_row {
            (at, &self.later[at - last_row - 1])
        } else if at == last_row {
            (at, &self.first)
        } else if self.rows.len() == 2 && at + ROW >= last_row {
            (last_row - ROW, &self.rows[1])
        } else {
            (0, &self.rows[0])
        }
    }

    /// How the version at a position became the next.
    pub(crate) fn change(&self, at: usize) -> &Change
        requires { at < length self.now.changes }
        ensures { slice_get self.now.changes at ≡ Some result.now }
    {
        &self.changes[at]
    }
}

impl<C: Drop> Line<C> {
    ghost use Rattle.object_store.specs.Inside.Rows.{change, OneMore};

    /// Adds a version, with the entry that made it behind the entries, or neither.
    pub(crate) fn add(
        &mut self,
        made: Made<C>,
        entries: &mut Entries,
        entry: Entry,
    ) -> Result<(), Memory>
        ensures ok { OnOk result
            (OneMore self.old made (change (length entries.old) made.tick) self.new) }
        ensures added { OnOk result (entries.new ≡ entries.old ++ entry ∷ []) }
        ensures err { OnErr result (self.new ≡ self.old) }
        ensures same { OnErr result (entries.new ≡ entries.old) }
    {
        let change = Change {
            place: entries.len(),
            tick: made.tick,
        };
        reserve_one(&mut self.changes)?;
        if self.later.len() + 1 < ROW {
            reserve_one(&mut self.later)?;
            entries.push(entry)?;
            self.later.push_reserved(made);
        } else {
            self.rows.try_reserve_exact(2 - self.rows.len())?;
            entries.push(entry)?;
            // Behind the very first stands only the first of the row before the last, which is now this row.
            self.rows.truncate(1);
            self.rows.push_reserved(mem::replace(&mut self.first, made));
            self.later.clear();
        }
        self.changes.push_reserved(change);
        Ok(())
    }
}
