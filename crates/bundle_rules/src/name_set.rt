//! Names in their order, found without a walk.

ghost use Rattle.std.specs.Prelude.{◌≡◌, ◌++◌, ◌∷◌, [], ℕ, List as Seq, IfOk, bytes_eq, cond, true, OnOk};
ghost use Rattle.std.specs.HashSet.{contains};
ghost use Rattle.base_types.specs.Names.{is_among};

use base_types::{Memory, Names, Text, TryCopy};
use std::alloc::Global;
use std::collections::HashSet;
use std::marker::Model;

/// Names that are found without a walk. Contracts see them as their list.
#[derive(Drop)]
pub(crate) struct NameSet {
    names: Names,
    set: HashSet<Text>,
}

impl Model for NameSet {
    ghost use Rattle.std.specs.Prelude.{◌≡◌, ℕ, List as Seq, bytes_eq};
    ghost use Rattle.std.specs.HashSet.{contains};
    ghost use Rattle.base_types.specs.Names.{is_among};

    ghost Value = { Seq (Seq ℕ) };

    ghost view = { λ known. known.names };

    ghost invariant = { λ known. (name : Seq ℕ) → contains bytes_eq known.set name ≡ is_among known.names name };
}

impl NameSet {
    pub(crate) fn new(alloc: Global) -> NameSet
        ensures { result ≡ [] }
    {
        NameSet {
            names: Names::new(alloc),
            set: HashSet::new(alloc),
        }
    }

    // The names with one more behind them.
    pub(crate) fn with(self, name: &Text) -> Result<NameSet, Memory>
        ensures { IfOk result (λ known. known ≡ self ++ name.now ∷ []) }
    {
        let mut names = self.names;
        let mut set = self.set;
        insert(&mut set, name)?;
        names.push(name.copy()?)?;
        Ok(NameSet { names, set })
    }

    pub(crate) fn has(&self, name: &Text) -> bool
        ensures { result ≡ is_among self.now name.now }
    {
        self.set.contains(name)
    }
}

fn insert(set: &mut HashSet<Text>, name: &Text) -> Result<(), Memory>
    ensures { OnOk result ((other : Seq ℕ) → contains bytes_eq set.new other
        ≡ cond (bytes_eq name.now other) true (contains bytes_eq set.old other)) }
{
    set.insert(name.copy()?)?;
    Ok(())
}
