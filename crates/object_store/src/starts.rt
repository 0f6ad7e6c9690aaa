//! What a store begins with.

ghost use Rattle.std.specs.Prelude.{◌≡◌, [], ◌∷◌, ◌++◌, None, OnOk, OnErr};
ghost use Rattle.history.specs.History.{version_at_start};

use crate::Content;
use crate::ledger::Ledger;
use base_types::Memory;
use std::alloc::Global;
use std::marker::Model;
use tree_types::Key;

/// A list of different keys, each with a content, in order.
#[derive(Drop)]
pub struct Starts<C: Content> {
    pub(crate) ledger: Ledger<C>,
}

impl<C: Content> Model for Starts<C> {
    ghost use Rattle.std.specs.Prelude.{◌≡◌, List, []};
    ghost use Rattle.tree_types.specs.declared.entry.Key.{Key};

    ghost Value = { List (Key × C) };

    ghost view = { λ s. s.ledger.start };

    ghost invariant = { λ s. s.ledger.events ≡ [] };
}

impl<C: Content> Starts<C> {
    /// The empty list, which takes no memory.
    pub fn new(alloc: Global) -> Self
        ensures { result ≡ [] }
    {
        Starts {
            ledger: Ledger::new(alloc),
        }
    }

    /// Adds a key that is not there.
    pub fn add(&mut self, key: Key, content: C) -> Result<(), Memory>
        requires { version_at_start C.apply key self.old ≡ None }
        ensures ok { OnOk result (self.new ≡ self.old ++ (key, content) ∷ []) }
        ensures err { OnErr result (self.new ≡ self.old) }
    {
        self.ledger.begin(key, content)
    }
}
