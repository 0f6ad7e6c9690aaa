//! A list whose copies share its items.

ghost use Rattle.std.specs.Prelude.{◌≡◌, ℕ, ◌<◌, ◌↔◌, List as Seq, [], ◌∷◌, ◌++◌, length, IsTrue, IfOk, OnOk, OnErr, slice_get, Some};
ghost use Rattle.std.specs.Slice.Iter.{iter_rest};
ghost use Rattle.std.specs.Hash as fed;
ghost use Rattle.std.specs.Cmp.Lexicographic.{pointwise, lists_per, lists_equiv};
ghost use Rattle.std.specs.Hash.{items_Alike};

use crate::{Memory, TryCopy};
use std::alloc::Global;
use std::hash::{Hash, Hasher};
use std::marker::Model;
use std::slice;
use std::sync::Arc;

/// A list that its copies share, and that contracts see as its items. One that is changed has its items for itself.
#[derive(Debug, Drop)]
pub struct SharedSlice<T> {
    items: Arc<Vec<T>>,
}

impl<T> Model for SharedSlice<T> {
    ghost Value = { Seq T };

    ghost view = { λ slice. slice.items.value.items };
}

impl<T> SharedSlice<T> {
    pub fn len(&self) -> usize
        ensures { result ≡ length self.now }
    {
        self.items.len()
    }

    pub fn is_empty(&self) -> bool
        ensures { IsTrue result ↔ (self.now ≡ []) }
    {
        self.items.is_empty()
    }

    /// The item at a position from 0.
    pub fn get(&self, position: usize) -> &T
        requires { position < length self.now }
        ensures { slice_get self.now position ≡ Some result.now }
    {
        &self.items[position]
    }

    pub fn as_slice(&self) -> &[T]
        ensures { result.now ≡ self.now }
    {
        self.items.as_slice()
    }

    pub fn iter(&self) -> slice::Iter<'_, T>
        ensures { iter_rest result ≡ self.now }
    {
        self.items.iter()
    }

    /// The allocator that the list keeps.
    pub fn allocator(&self) -> Global {
        *self.items.allocator()
    }
}

impl<T: Copy> SharedSlice<T> {
    /// The empty list.
    pub fn new(alloc: Global) -> Result<Self, Memory>
        ensures { IfOk result (λ slice. slice ≡ []) }
    {
        SharedSlice::from_slice(alloc, &[])
    }

    /// A list of the same items as a slice.
    pub fn from_slice(alloc: Global, items: &[T]) -> Result<Self, Memory>
        ensures { IfOk result (λ slice. slice ≡ items.now) }
    {
        let mut own = Vec::with_capacity(alloc, items.len())?;
        own.extend_from_slice(items)?;
        Ok(SharedSlice {
            items: Arc::new(alloc, own)?,
        })
    }

    /// Adds an item at the end.
    pub fn push(&mut self, item: T) -> Result<(), Memory>
        ensures ok { OnOk result (self.new ≡ self.old ++ item ∷ []) }
        ensures err { OnErr result (self.new ≡ self.old) }
    {
        let alloc = self.allocator();
        let mut items = Vec::with_capacity(alloc, self.len().saturating_add(1))?;
        items.extend_from_slice(self.as_slice())?;
        items.push(item)?;
        self.items = Arc::new(alloc, items)?;
        Ok(())
    }
}

impl<T: Drop> TryCopy for SharedSlice<T> {
    fn copy(&self) -> Result<SharedSlice<T>, Memory> {
        Ok(SharedSlice {
            items: Arc::try_clone(&self.items)?,
        })
    }
}

impl<T: PartialEq> PartialEq for SharedSlice<T> {
    ghost eq = { pointwise T.eq };

    ghost laws = { lists_per T.laws };

    fn eq(&self, other: &SharedSlice<T>) -> bool {
        self.as_slice() == other.as_slice()
    }
}

impl<T: Eq> Eq for SharedSlice<T> {
    ghost laws = { lists_equiv T.Eq.laws };
}

impl<T: Hash> Hash for SharedSlice<T> {
    ghost hash_input = { λ slice. fed.slice T.hash_input slice };

    ghost respects_eq = { (items_Alike (record { fed = T.respects_eq })).fed };

    fn hash<H: Hasher>(&self, state: &mut H) {
        self.as_slice().hash(state);
    }
}
