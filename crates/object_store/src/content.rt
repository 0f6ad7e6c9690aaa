//! What a store keeps under its keys, and the law of its entries.

ghost use Rattle.std.specs.Prelude.{◌≡◌, List, Option, Some, IfOk, IsSome};
ghost use Rattle.tree_types.specs.declared.entry.Key.{Key};
ghost use Rattle.tree_types.specs.declared.entry.Entry.{Entry};
ghost use Rattle.history.specs.History.{History, Event};

use base_types::Memory;
use tree_types::Entry;

/// A content of the store's objects.
pub trait Content: Sized + Drop {
    /// What the start and the entries of a store have to agree with.
    type Law;

    /// The entry makes an object of this content under the key.
    ghost makes: { Key → Entry → Self → Type 0 };

    /// The content that follows, where the entry leads from this one to another.
    ghost apply: { Self → Entry → Option Self };

    /// A store may begin with these objects.
    ghost begins: { Self.Law → List (Key × Self) → Type 0 };

    /// The entry is justified by the history before it.
    ghost justified: { Self.Law → History Self → Event Self → Type 0 };

    /// An equal content.
    fn copy(&self) -> Result<Self, Memory>
        ensures { IfOk result (λ copy. copy ≡ self.now) };

    /// The content that follows by an entry.
    fn after(&self, change: &Entry) -> Result<Self, Memory>
        requires { IsSome (apply self.now change.now) }
        ensures { IfOk result (λ next. apply self.now change.now ≡ Some next) };
}
