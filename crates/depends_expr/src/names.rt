//! Names, each once, in the order in which they came.

ghost use Rattle.std.specs.Prelude.{◌≡◌, ◌∷◌, ◌++◌, [], IfOk, OnOk, Some, slice_get};
ghost use Rattle.depends_expr.specs.Truth.{add_name};

use base_types::{Memory, Names, Text, TryCopy};
use indexmap::IndexSet;
use std::alloc::Global;
use std::marker::Model;

/// The names so far.
#[derive(Drop)]
pub(crate) struct NameTable {
    set: IndexSet<Text>,
}

impl Model for NameTable {
    ghost use Rattle.std.specs.Prelude.{ℕ, List as Seq};

    ghost Value = { Seq (Seq ℕ) };

    ghost view = { λ table. table.set.keys };
}

impl NameTable {
    pub(crate) fn new(alloc: Global) -> NameTable
        ensures { result ≡ [] }
    {
        NameTable {
            set: IndexSet::new(alloc),
        }
    }

    /// The position of a name, which is added where it is new.
    pub(crate) fn position(&mut self, name: Text) -> Result<usize, Memory>
        ensures names { OnOk result (self.new ≡ add_name self.old name) }
        ensures found { IfOk result (λ position. slice_get self.new position ≡ Some name) }
    {
        let (position, _) = self.set.insert_full(name)?;
        Ok(position)
    }

    /// The names as a list.
    #[tactic(auto, using(crate::proofs::Lists::one_taken))]
    pub(crate) fn names(&self, alloc: Global) -> Result<Names, Memory>
        ensures { IfOk result (λ names. names ≡ self.now) }
    {
        let mut names = Names::with_capacity(alloc, self.set.len())?;
        for position in 0..self.set.len() {
            names.push(self.set[position].copy()?)?;
        }
        Ok(names)
    }
}
