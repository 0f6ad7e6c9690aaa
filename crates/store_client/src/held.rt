//! The store as the value under a turn: its type says that its history is lawful.

ghost use Rattle.std.specs.Prelude.{◌≡◌, None, Some, IfOk};
ghost use Rattle.tree_types.specs.declared.entry.Entry.TheVariants.{Tick};
ghost use Rattle.history.specs.History.{event, clock_of, version_at};
ghost use Rattle.object_store.specs.Answers.{GetGives, CreateGives, WriteGives, TickGives, Adds, IsOf};
ghost use Rattle.object_store.specs.Entries.{MakesObject, ChangesObject};
ghost use Rattle.object_store.specs.LawfulHistories.{IsLawful};
ghost use Rattle.object_store.specs.Stored.{Asked, row_after};
ghost use Rattle.store_client.specs.Calls.{WillBeJustified, TickWillBeJustified};

use io_edge::Outage;
use object_store::{Content, Snapshot, Store, StoreRefused};
use std::collections::LinkedList;
use std::marker::Model;
use store_turn::Grows;
use tree_types::{Entry, Key};

/// An accepted entry, with the first content of an object that it made. It is spoken of in clauses alone.
pub struct Accepted<T> {
    entry: Entry,
    made: Option<T>,
}

impl<T> Model for Accepted<T> {
    ghost use Rattle.history.specs.History.{Event, event};

    ghost Value = { Event T };

    ghost view = { λ accepted. event accepted.entry accepted.made };
}

/// A store and its law. Each call keeps the store's history lawful.
#[derive(Drop)]
pub struct Held<T: Content, O: Outage> {
    store: Store<T, O>,
    law: std::snapshot::Snapshot<T::Law>,
}

impl<T: Content, O: Outage> Model for Held<T, O> {
    ghost use Rattle.object_store.specs.LawfulHistories.{IsLawful};
    ghost use Rattle.store_client.specs.Under.{UnderLaw};

    ghost Value = { UnderLaw T O T.Law };

    ghost view = { λ held. record { store = held.store; law = held.law.value } };

    ghost invariant = { λ held. IsLawful T.begins T.justified held.law.value held.store.history };
}

impl<T: Content, O: Outage> Held<T, O> {
    pub fn new(store: Store<T, O>, law: std::snapshot::Snapshot<T::Law>) -> Self
        requires { IsLawful T.begins T.justified law.value store.history }
        ensures { result ≡ record { store = store; law = law.value } }
    {
        Held { store, law }
    }

    pub fn into_store(self) -> Store<T, O>
        ensures store { result ≡ self.store }
        ensures lawful { IsLawful T.begins T.justified self.law result.history }
    {
        let Held { store, law: _ } = self;
        store
    }

    pub fn get(&mut self, key: &Key) -> Result<Snapshot<T>, StoreRefused>
        ensures answer { GetGives key.now
            (clock_of self.old.store.history)
            (version_at T.apply self.old.store.history key.now) result }
        ensures of { IfOk result (λ s. IsOf T.apply s self.new.store.history) }
        ensures same { self.new.store.history ≡ self.old.store.history }
        ensures outage { Asked
            O.faults O.most O.asked self.old.store.outage self.new.store.outage result }
        ensures row { self.new.store.row ≡ row_after self.old.store.row result }
        ensures law { self.new.law ≡ self.old.law }
        ensures lawful { IsLawful T.begins T.justified self.new.law self.new.store.history }
    {
        self.store.get(key)
    }

    pub fn create(
        &mut self,
        key: Key,
        content: T,
        change: Entry,
    ) -> Result<Snapshot<T>, StoreRefused>
        requires entry { MakesObject change key }
        requires makes { T.makes key change content }
        requires justified { WillBeJustified T.begins T.justified self.old.law
            T.apply self.old.store.history key 0 (event change (Some content)) }
        ensures answer { CreateGives key content
            (clock_of self.old.store.history)
            (version_at T.apply self.old.store.history key) result }
        ensures of { IfOk result (λ s. IsOf T.apply s self.new.store.history) }
        ensures adds { Adds self.old.store.history
            (event change (Some content)) result self.new.store.history }
        ensures outage { Asked
            O.faults O.most O.asked self.old.store.outage self.new.store.outage result }
        ensures row { self.new.store.row ≡ row_after self.old.store.row result }
        ensures law { self.new.law ≡ self.old.law }
        ensures lawful { IsLawful T.begins T.justified self.new.law self.new.store.history }
    {
        self.store.create(key, content, change)
    }

    pub fn write(
        &mut self,
        from: &Snapshot<T>,
        next: T,
        change: Entry,
    ) -> Result<Snapshot<T>, StoreRefused>
        requires of { IsOf T.apply from.now self.old.store.history }
        requires entry { ChangesObject change from.now.key }
        requires leads { T.apply from.now.content change ≡ Some next }
        requires justified { WillBeJustified T.begins T.justified self.old.law
            T.apply self.old.store.history from.now.key from.now.version (event change None) }
        ensures answer { WriteGives from.now next
            (clock_of self.old.store.history)
            (version_at T.apply self.old.store.history from.now.key) result }
        ensures of { IfOk result (λ s. IsOf T.apply s self.new.store.history) }
        ensures adds { Adds self.old.store.history
            (event change None) result self.new.store.history }
        ensures outage { Asked
            O.faults O.most O.asked self.old.store.outage self.new.store.outage result }
        ensures row { self.new.store.row ≡ row_after self.old.store.row result }
        ensures law { self.new.law ≡ self.old.law }
        ensures lawful { IsLawful T.begins T.justified self.new.law self.new.store.history }
    {
        self.store.write(from, next, change)
    }

    pub fn tick(&mut self, to: u64) -> Result<(), StoreRefused>
        requires justified { TickWillBeJustified T.begins T.justified
            self.old.law self.old.store.history to }
        ensures answer { TickGives to (clock_of self.old.store.history) result }
        ensures adds { Adds self.old.store.history
            (event (Tick to) None) result self.new.store.history }
        ensures outage { Asked
            O.faults O.most O.asked self.old.store.outage self.new.store.outage result }
        ensures row { self.new.store.row ≡ row_after self.old.store.row result }
        ensures law { self.new.law ≡ self.old.law }
        ensures lawful { IsLawful T.begins T.justified self.new.law self.new.store.history }
    {
        self.store.tick(to)
    }
}

impl<T: Content, O: Outage> Grows for Held<T, O> {
    type Item = Accepted<T>;

    type Base = (LinkedList<(Key, T)>, T::Law);

    ghost list = { λ held. held.store.history.events };

    ghost base = { λ held. (held.store.history.start, held.law) };

    fn len(&self) -> u64 {
        self.store.entries().len() as u64
    }
}
