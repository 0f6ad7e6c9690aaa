//! The store: its calls may fail by an outage, and are told by what they answer.

ghost use Rattle.std.specs.Prelude.{◌≡◌, [], None, Some, MatchOption, MatchResult, IfOk, length, map};
ghost use Rattle.tree_types.specs.declared.entry.Entry.TheVariants.{Tick};
ghost use Rattle.history.specs.History.{event, clock_of, version_at, map_content};
ghost use Rattle.object_store.specs.declared.refused.StoreRefused.TheVariants.{Fault};
ghost use Rattle.object_store.specs.Entries.{MakesObject, ChangesObject};
ghost use Rattle.object_store.specs.Versions.{versions};
ghost use Rattle.object_store.specs.Answers.{GetGives, GetBackGives, CreateGives, WriteGives, TickGives, Adds, IsOf};
ghost use Rattle.object_store.specs.Stored.{Asked, row_after};

use crate::ledger::Ledger;
use crate::{Content, Snapshot, Starts, StoreRefused};
use io_edge::Outage;
use std::marker::Model;
use tree_types::{Entries, Entry, Key};

/// After so many Faults in a row the store counts as lost.
pub const MOST_FAULTS: u64 = 16;

/// Contracts see its history, how many of its last calls in a row answered Fault, and its outage.
#[derive(Drop)]
pub struct Store<C: Content, O: Outage> {
    outage: O,
    ledger: Ledger<C>,
    row: u64,
}

impl<C: Content, O: Outage> Model for Store<C, O> {
    ghost use Rattle.std.specs.Prelude.{◌≤◌};
    ghost use Rattle.object_store.specs.Stored.{Stored, most_faults};

    ghost Value = { Stored C O };

    ghost view = { λ s. record { history = s.ledger; row = s.row; outage = s.outage } };

    ghost invariant = { λ s. s.row ≤ most_faults };
}

impl<C: Content, O: Outage> Store<C, O> {
    /// A store with no entries, whose clock is 0. It takes no memory.
    pub fn new(outage: O, start: Starts<C>) -> Self
        ensures { result
            ≡ record { history = record { start = start; events = [] }; row = 0; outage = outage } }
    {
        Store {
            outage,
            ledger: start.ledger,
            row: 0,
        }
    }

    // Asks the outage, and counts what it says.
    fn ask(&mut self) -> Result<(), StoreRefused>
        ensures told { MatchResult result (λ _. Unit {0}) (λ e. e ≡ Fault) }
        ensures same { self.new.history ≡ self.old.history }
        ensures outage { Asked O.faults O.most O.asked self.old.outage self.new.outage result }
        ensures row { self.new.row ≡ row_after self.old.row result }
    {
        let passed = self.outage.pass();
        if self.row < MOST_FAULTS {
            self.row = if passed { 0 } else { self.row + 1 };
        }
        if passed {
            Ok(())
        } else {
            Err(StoreRefused::Fault)
        }
    }

    /// The object of a key, as it is.
    pub fn get(&mut self, key: &Key) -> Result<Snapshot<C>, StoreRefused>
        ensures answer { GetGives key.now (clock_of self.old.history)
            (version_at C.apply self.old.history key.now) result }
        ensures of { IfOk result (λ s. IsOf C.apply s self.new.history) }
        ensures same { self.new.history ≡ self.old.history }
        ensures outage { Asked O.faults O.most O.asked self.old.outage self.new.outage result }
        ensures row { self.new.row ≡ row_after self.old.row result }
    {
        self.ask()?;
        self.ledger.get(key)
    }

    /// The object of a key, as it was so many versions back, but not before its first, with the clock when that version
    /// was made.
    pub fn get_back(&mut self, key: &Key, back: u64) -> Result<Snapshot<C>, StoreRefused>
        ensures answer { GetBackGives
            key.now back (versions C.apply self.old.history key.now) result }
        ensures of { IfOk result (λ s. IsOf C.apply s self.new.history) }
        ensures same { self.new.history ≡ self.old.history }
        ensures outage { Asked O.faults O.most O.asked self.old.outage self.new.outage result }
        ensures row { self.new.row ≡ row_after self.old.row result }
    {
        self.ask()?;
        self.ledger.get_back(key, back)
    }

    /// Makes an object by an entry. The snapshot is of the object as it was made.
    pub fn create(
        &mut self,
        key: Key,
        content: C,
        change: Entry,
    ) -> Result<Snapshot<C>, StoreRefused>
        requires entry { MakesObject change key }
        requires makes { C.makes key change content }
        ensures answer { CreateGives key content (clock_of self.old.history)
            (version_at C.apply self.old.history key) result }
        ensures of { IfOk result (λ s. IsOf C.apply s self.new.history) }
        ensures adds { Adds self.old.history (event change (Some content)) result self.new.history }
        ensures outage { Asked O.faults O.most O.asked self.old.outage self.new.outage result }
        ensures row { self.new.row ≡ row_after self.old.row result }
    {
        self.ask()?;
        self.ledger.create(key, content, change)
    }

    /// Changes an object by an entry, where it still has the version that the caller read. The snapshot is of the object
    /// as it was changed.
    pub fn write(
        &mut self,
        from: &Snapshot<C>,
        next: C,
        change: Entry,
    ) -> Result<Snapshot<C>, StoreRefused>
        requires of { IsOf C.apply from.now self.old.history }
        requires entry { ChangesObject change from.now.key }
        requires leads { C.apply from.now.content change ≡ Some next }
        ensures answer { WriteGives
            from.now next (clock_of self.old.history)
            (version_at C.apply self.old.history from.now.key) result }
        ensures of { IfOk result (λ s. IsOf C.apply s self.new.history) }
        ensures adds { Adds self.old.history (event change None) result self.new.history }
        ensures outage { Asked O.faults O.most O.asked self.old.outage self.new.outage result }
        ensures row { self.new.row ≡ row_after self.old.row result }
    {
        self.ask()?;
        self.ledger.write(from, next, change)
    }

    /// Moves the clock on.
    pub fn tick(&mut self, to: u64) -> Result<(), StoreRefused>
        ensures answer { TickGives to (clock_of self.old.history) result }
        ensures adds { Adds self.old.history (event (Tick to) None) result self.new.history }
        ensures outage { Asked O.faults O.most O.asked self.old.outage self.new.outage result }
        ensures row { self.new.row ≡ row_after self.old.row result }
    {
        self.ask()?;
        self.ledger.tick(to)
    }

    /// The accepted entries, in order. This and what follows are no calls of the store: they ask no outage.
    pub fn entries(&self) -> &Entries
        ensures { result.now ≡ map (λ e. e.entry) self.now.history.events }
    {
        self.ledger.entries()
    }

    /// How many entries were accepted.
    pub fn len(&self) -> usize
        ensures { result ≡ length self.now.history.events }
    {
        self.ledger.len()
    }

    /// The content of a key's object, as it is.
    pub fn look(&self, key: &Key) -> Option<&C>
        ensures { MatchOption result
            (version_at C.apply self.now.history key.now ≡ None)
            (λ content. map_content (version_at C.apply self.now.history key.now)
            ≡ Some content.now) }
    {
        self.ledger.look(key)
    }

    pub fn clock(&self) -> u64
        ensures { result ≡ clock_of self.now.history }
    {
        self.ledger.clock()
    }

    /// How many of the last calls in a row answered Fault; once they are 16 they stay 16.
    pub fn row(&self) -> u64
        ensures { result ≡ self.now.row }
    {
        self.row
    }

    /// The accepted entries, and the outage as the calls left it.
    pub fn close(self) -> (Entries, O)
        ensures entries { result.0 ≡ map (λ e. e.entry) self.history.events }
        ensures outage { result.1 ≡ self.outage }
    {
        (self.ledger.into_entries(), self.outage)
    }
}
