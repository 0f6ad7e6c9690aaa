//! The objects of a store with all their versions, and the entries that made them.

ghost use Rattle.std.specs.Prelude.{◌≡◌, ◌≢◌, ◌<◌, ◌≤◌, [], ◌∷◌, ◌++◌, None, Some, Err, Ok, MatchOption, OnOk, OnErr, IfOk, length, map};
ghost use Rattle.tree_types.specs.declared.entry.Entry.TheVariants.{Tick};
ghost use Rattle.history.specs.History.{event, grown, clock_of, version_at, map_content};
ghost use Rattle.object_store.specs.declared.refused.StoreRefused.TheVariants.{Fault};
ghost use Rattle.object_store.specs.Entries.{MakesObject, ChangesObject};
ghost use Rattle.object_store.specs.Versions.{versions};
ghost use Rattle.object_store.specs.Answers.{GetGives, GetBackGives, CreateGives, WriteGives, TickGives, Adds, IsOf, ShowsObject};
ghost use Rattle.object_store.specs.Inside.Changes.{Appends, Inserts, NextGives};
ghost use Rattle.indexmap.specs.IndexMap.{spare};
ghost use Rattle.object_store.specs.Inside.Lines.{line_at, firsts};
ghost use Rattle.object_store.specs.Inside.Rows.{IsLine, change};

use crate::line::{Line, Made};
use crate::{Content, Snapshot, StoreRefused};
use base_types::{List, Memory, TryCopy};
use indexmap::IndexMap;
use std::alloc::Global;
use std::marker::Model;
use tree_types::{Entries, Entry, Key};

/// Contracts see it as its history.
#[derive(Drop)]
pub(crate) struct Ledger<C: Content> {
    alloc: Global,
    entries: Entries,
    objects: IndexMap<Key, Line<C>>,
    // How many of the objects were there before the entries.
    begun: usize,
    clock: u64,
}

impl<C: Content> Model for Ledger<C> {
    ghost use Rattle.history.specs.History.{History};

    ghost Value = { History C };

    ghost use Rattle.object_store.specs.Inside.Lines.{line_at, firsts};
    ghost use Rattle.object_store.specs.Inside.Kept.{history_of, Kept};

    ghost view = { λ l. history_of l.begun (firsts l.objects.entries) l.entries };

    ghost invariant = { λ l.
        Kept C.apply l.begun (firsts l.objects.entries) (line_at l.objects.entries) l.entries l.clock };
}

// Puts a new object behind the others, where there is room.
fn insert<C: Content>(
    alloc: Global,
    objects: &mut IndexMap<Key, Line<C>>,
    key: Key,
    content: C,
    tick: u64,
)
    requires room { 0 < spare objects.old }
    requires new { line_at objects.old.entries key ≡ None }
    ensures { Inserts objects.old.entries key content tick objects.new.entries }
{
    let line = Line::new(alloc, Made { content, tick });
    let Ok(_) = objects.insert(key, line) else {
        unreachable!()
    };
}

// Adds a version to an object, with the entry that made it, or neither.
fn append<C: Content>(
    objects: &mut IndexMap<Key, Line<C>>,
    entries: &mut Entries,
    key: &Key,
    made: Made<C>,
    entry: Entry,
) -> Result<(), Memory>
    requires { line_at objects.old.entries key.now ≢ None }
    ensures ok { OnOk result (Appends objects.old.entries key.now made
        (change (length entries.old) made.tick) objects.new.entries) }
    ensures added { OnOk result (entries.new ≡ entries.old ++ entry ∷ []) }
    ensures err { OnErr result (objects.new.entries ≡ objects.old.entries) }
    ensures same { OnErr result (entries.new ≡ entries.old) }
{
    let Some(line) = objects.get_mut(key) else {
        unreachable!()
    };
    line.add(made, entries, entry)
}

impl<C: Content> Ledger<C> {
    /// No objects and no entries. It takes no memory.
    pub(crate) fn new(alloc: Global) -> Self
        ensures { result ≡ record { start = []; events = [] } }
    {
        Ledger {
            alloc,
            entries: List::new(alloc),
            objects: IndexMap::new(alloc),
            begun: 0,
            clock: 0,
        }
    }

    /// Adds an object that is there before all entries.
    pub(crate) fn begin(&mut self, key: Key, content: C) -> Result<(), Memory>
        requires first { self.old.events ≡ [] }
        requires new { version_at C.apply self.old key ≡ None }
        ensures ok { OnOk result (self.new ≡ record { start = self.old.start ++ (key, content) ∷ []; events = [] }) }
        ensures err { OnErr result (self.new ≡ self.old) }
    {
        self.objects.reserve(1)?;
        insert(self.alloc, &mut self.objects, key, content, 0);
        self.begun = self.objects.len();
        Ok(())
    }

    // The line of an object.
    fn find(&self, key: &Key) -> Option<&Line<C>>
        ensures { MatchOption result
            (versions C.apply self.now key.now ≡ [])
            (λ line. IsLine C.apply (map (λ e. e.entry) self.now.events) line.now
            (versions C.apply self.now key.now)) }
    {
        self.objects.get(key)
    }

    // The number and the content of an object.
    fn present(&self, key: &Key) -> Option<(u64, &C)>
        ensures { MatchOption result
            (version_at C.apply self.now key.now ≡ None)
            (λ p. version_at C.apply self.now key.now ≡ Some record { number = p.0; content = p.1.now }) }
    {
        match self.find(key) {
            Some(line) => Some((line.count(), &line.last().content)),
            None => None,
        }
    }

    pub(crate) fn get(&self, key: &Key) -> Result<Snapshot<C>, StoreRefused>
        ensures answer { GetGives key.now (clock_of self.now) (version_at C.apply self.now key.now) result }
        ensures no_fault { result ≢ Err Fault }
    {
        let (version, content) = self.present(key).ok_or(StoreRefused::NoObject)?;
        Ok(Snapshot {
            key: key.copy()?,
            version,
            content: content.copy()?,
            tick: self.clock,
        })
    }

    pub(crate) fn get_back(&self, key: &Key, back: u64) -> Result<Snapshot<C>, StoreRefused>
        ensures answer { GetBackGives key.now back (versions C.apply self.now key.now) result }
        ensures no_fault { result ≢ Err Fault }
    {
        let line = self.find(key).ok_or(StoreRefused::NoObject)?;
        let version = line.count().saturating_sub(back).max(1);
        let at = (version - 1) as usize;
        let (kept, made) = line.nearest(at);
        let mut content = made.content.copy()?;
        let mut tick = made.tick;
        // Where that version is not kept, the object's own entries make it again.
        for i in kept..at {
            let change = line.change(i);
            content = content.after(self.entries().get(change.place))?;
            tick = change.tick;
        }
        Ok(Snapshot {
            key: key.copy()?,
            version,
            content,
            tick,
        })
    }

    // Adds an entry with the object that it makes.
    fn add(&mut self, key: Key, content: C, change: Entry) -> Result<(), Memory>
        requires entry { MakesObject change key }
        requires new { version_at C.apply self.old key ≡ None }
        ensures ok { OnOk result (self.new ≡ grown self.old (event change (Some content))) }
        ensures err { OnErr result (self.new ≡ self.old) }
    {
        self.objects.reserve(1)?;
        self.entries.push(change)?;
        insert(self.alloc, &mut self.objects, key, content, self.clock);
        Ok(())
    }

    pub(crate) fn create(
        &mut self,
        key: Key,
        content: C,
        change: Entry,
    ) -> Result<Snapshot<C>, StoreRefused>
        requires { MakesObject change key }
        ensures answer { CreateGives key content (clock_of self.old) (version_at C.apply self.old key) result }
        ensures adds { Adds self.old (event change (Some content)) result self.new }
        ensures no_fault { result ≢ Err Fault }
    {
        if self.present(&key).is_some() {
            return Err(StoreRefused::Exists);
        }
        let shown = Snapshot {
            key: key.copy()?,
            version: 1,
            content: content.copy()?,
            tick: self.clock,
        };
        self.add(key, content, change)?;
        Ok(shown)
    }

    // The number that comes next, where the object stands as the snapshot shows it.
    fn next_number(&self, from: &Snapshot<C>) -> Result<u64, StoreRefused>
        requires { IsOf C.apply from.now self.now }
        ensures { NextGives from.now (version_at C.apply self.now from.now.key) result }
    {
        let Some((found, _)) = self.present(&from.key) else {
            unreachable!()
        };
        if found != from.version {
            return Err(StoreRefused::Conflict {
                expected: from.version,
                found,
            });
        }
        match found.checked_add(1) {
            Some(next) => Ok(next),
            None => Err(StoreRefused::Memory),
        }
    }

    // Adds an entry with the version that it makes of an object.
    fn change(&mut self, from: &Snapshot<C>, next: C, change: Entry) -> Result<(), Memory>
        requires entry { ChangesObject change from.now.key }
        requires unmoved { ShowsObject from.now (version_at C.apply self.old from.now.key) }
        requires leads { C.apply from.now.content change ≡ Some next }
        ensures ok { OnOk result (self.new ≡ grown self.old (event change None)) }
        ensures err { OnErr result (self.new ≡ self.old) }
    {
        let made = Made {
            content: next,
            tick: self.clock,
        };
        append(
            &mut self.objects,
            &mut self.entries,
            &from.key,
            made,
            change,
        )
    }

    pub(crate) fn write(
        &mut self,
        from: &Snapshot<C>,
        next: C,
        change: Entry,
    ) -> Result<Snapshot<C>, StoreRefused>
        requires of { IsOf C.apply from.now self.old }
        requires entry { ChangesObject change from.now.key }
        requires leads { C.apply from.now.content change ≡ Some next }
        ensures answer { WriteGives
            from.now next (clock_of self.old) (version_at C.apply self.old from.now.key) result }
        ensures adds { Adds self.old (event change None) result self.new }
        ensures no_fault { result ≢ Err Fault }
    {
        let shown = Snapshot {
            version: self.next_number(from)?,
            key: from.key.copy()?,
            content: next.copy()?,
            tick: self.clock,
        };
        self.change(from, next, change)?;
        Ok(shown)
    }

    pub(crate) fn tick(&mut self, to: u64) -> Result<(), StoreRefused>
        ensures answer { TickGives to (clock_of self.old) result }
        ensures adds { Adds self.old (event (Tick to) None) result self.new }
        ensures no_fault { result ≢ Err Fault }
    {
        if to <= self.clock {
            return Err(StoreRefused::Behind { clock: self.clock });
        }
        self.entries.push(Entry::Tick { to })?;
        self.clock = to;
        Ok(())
    }

    pub(crate) fn look(&self, key: &Key) -> Option<&C>
        ensures { MatchOption result
            (version_at C.apply self.now key.now ≡ None)
            (λ content. map_content (version_at C.apply self.now key.now) ≡ Some content.now) }
    {
        let (_, content) = self.present(key)?;
        Some(content)
    }

    pub(crate) fn clock(&self) -> u64
        ensures { result ≡ clock_of self.now }
    {
        self.clock
    }

    pub(crate) fn entries(&self) -> &Entries
        ensures { result.now ≡ map (λ e. e.entry) self.now.events }
    {
        &self.entries
    }

    pub(crate) fn len(&self) -> usize
        ensures { result ≡ length self.now.events }
    {
        self.entries.len()
    }

    pub(crate) fn into_entries(self) -> Entries
        ensures { result ≡ map (λ e. e.entry) self.events }
    {
        self.entries
    }
}
