//! The calls of a client.

ghost use Rattle.std.specs.Prelude.{◌≡◌, ◌≢◌, ◌≤◌, ◌<◌, ◌^◌, ℕ, Some, None, Err, IfOk, length};
ghost use Rattle.io_edge.specs.Cause.{Rose};
ghost use Rattle.history.specs.History.{History, event};
ghost use Rattle.object_store.specs.declared.refused.StoreRefused.TheVariants.{Fault};
ghost use Rattle.object_store.specs.Entries.{MakesObject, ChangesObject};
ghost use Rattle.object_store.specs.Answers.{IsOf};
ghost use Rattle.object_store.specs.Stored.{FailedBy};
ghost use Rattle.history.specs.Versions.{back_of, lag_after};
ghost use Rattle.store_client.specs.Calls.{Got, Created, Wrote, Ticked, WillBeJustified, TickWillBeJustified, StaysLawful};

use object_store::{Content, Snapshot, StoreRefused};
use tree_types::{Entry, Key};

/// A caller of a store, which others may call too.
pub trait Client<T: Content> {
    /// The history that it knows.
    ghost seen: { Self → History T };

    /// The law of that history.
    ghost law: { Self → T.Law };

    /// Rises by one with each entry of others that it comes to see. What it begins with says nothing.
    ghost others: { Self → ℕ };

    /// How many versions back its next get reads.
    ghost lag: { Self → ℕ };

    /// How many Faults it knows of.
    ghost faults: { Self → ℕ };

    /// How many of its last calls in a row it knows to have failed.
    ghost in_row: { Self → ℕ };

    /// A Fault came between these two.
    ghost rose: { Self → Self → Type 0 };

    /// What its caller is told of where it calls from: the name of the borrow that it holds, and more where it has more.
    ghost Place: { Type 0 };

    ghost place: { Self → Place };

    /// The object of a key, as it is, or as it was where there is a lag.
    fn get(&mut self, key: &Key) -> Result<Snapshot<T>, StoreRefused>
        ensures got { Got T.apply key.now (back_of key.now (lag self.old))
            (seen self.old) result (seen self.new) (others self.old) (others self.new) }
        ensures lag { lag self.new ≡ lag_after key.now (lag self.old) }
        ensures of { IfOk result (λ s. IsOf T.apply s (seen self.new)) }
        ensures lawful { StaysLawful
            T.begins T.justified (law self.old) (seen self.old) (seen self.new) }
        ensures size { length (seen self.new).events < 2 ^ 64 }
        ensures law { law self.new ≡ law self.old }
        ensures place { place self.new ≡ place self.old }
        ensures faults { faults self.old ≤ faults self.new }
        ensures still { result ≢ Err Fault → FailedBy faults in_row 0 self.old self.new }
        ensures rose { result ≡ Err Fault → rose self.old self.new }
        ensures cause { result ≡ Err Fault → Rose (faults self.old) (faults self.new) };

    /// Makes an object by an entry.
    fn create(&mut self, key: Key, content: T, change: Entry) -> Result<Snapshot<T>, StoreRefused>
        requires entry { MakesObject change key }
        requires makes { T.makes key change content }
        requires justified { WillBeJustified T.begins T.justified (law self.old)
            T.apply (seen self.old) key 0 (event change (Some content)) }
        ensures created { Created T.apply key content (event change (Some content))
            (seen self.old) result (seen self.new) (others self.old) (others self.new) }
        ensures lag { lag self.new ≡ lag self.old }
        ensures of { IfOk result (λ s. IsOf T.apply s (seen self.new)) }
        ensures lawful { StaysLawful
            T.begins T.justified (law self.old) (seen self.old) (seen self.new) }
        ensures size { length (seen self.new).events < 2 ^ 64 }
        ensures law { law self.new ≡ law self.old }
        ensures place { place self.new ≡ place self.old }
        ensures faults { faults self.old ≤ faults self.new }
        ensures still { result ≢ Err Fault → FailedBy faults in_row 0 self.old self.new }
        ensures rose { result ≡ Err Fault → rose self.old self.new }
        ensures cause { result ≡ Err Fault → Rose (faults self.old) (faults self.new) };

    /// Changes an object by an entry, where it still has the version of the snapshot.
    fn write(
        &mut self,
        from: &Snapshot<T>,
        next: T,
        change: Entry,
    ) -> Result<Snapshot<T>, StoreRefused>
        requires of { IsOf T.apply from.now (seen self.old) }
        requires entry { ChangesObject change from.now.key }
        requires leads { T.apply from.now.content change ≡ Some next }
        requires justified { WillBeJustified T.begins T.justified (law self.old)
            T.apply (seen self.old) from.now.key from.now.version (event change None) }
        ensures wrote { Wrote T.apply from.now next (event change None)
            (seen self.old) result (seen self.new) (others self.old) (others self.new) }
        ensures lag { lag self.new ≡ lag self.old }
        ensures of { IfOk result (λ s. IsOf T.apply s (seen self.new)) }
        ensures lawful { StaysLawful
            T.begins T.justified (law self.old) (seen self.old) (seen self.new) }
        ensures size { length (seen self.new).events < 2 ^ 64 }
        ensures law { law self.new ≡ law self.old }
        ensures place { place self.new ≡ place self.old }
        ensures faults { faults self.old ≤ faults self.new }
        ensures still { result ≢ Err Fault → FailedBy faults in_row 0 self.old self.new }
        ensures rose { result ≡ Err Fault → rose self.old self.new }
        ensures cause { result ≡ Err Fault → Rose (faults self.old) (faults self.new) };

    /// Moves the clock on.
    fn tick(&mut self, to: u64) -> Result<(), StoreRefused>
        requires { TickWillBeJustified T.begins T.justified (law self.old) (seen self.old) to }
        ensures ticked { Ticked to
            (seen self.old) result (seen self.new) (others self.old) (others self.new) }
        ensures lag { lag self.new ≡ lag self.old }
        ensures lawful { StaysLawful
            T.begins T.justified (law self.old) (seen self.old) (seen self.new) }
        ensures size { length (seen self.new).events < 2 ^ 64 }
        ensures law { law self.new ≡ law self.old }
        ensures place { place self.new ≡ place self.old }
        ensures faults { faults self.old ≤ faults self.new }
        ensures still { result ≢ Err Fault → FailedBy faults in_row 0 self.old self.new }
        ensures rose { result ≡ Err Fault → rose self.old self.new }
        ensures cause { result ≡ Err Fault → Rose (faults self.old) (faults self.new) };
}
