//! The client of a store on the caller's own thread.

ghost use Rattle.std.specs.Prelude.{◌≡◌, ℕ};
ghost use Rattle.history.specs.Versions.{back_of, lag_after};
ghost use Rattle.object_store.specs.Stored.{FailedBy};

use crate::Client;
use io_edge::Outage;
use object_store::{Content, Snapshot, Store, StoreRefused};
use tree_types::{Entry, Key};

/// Calls a store that nobody else calls meanwhile. It knows the store's whole history.
#[derive(Drop)]
pub struct MemClient<'a, T: Content, O: Outage> {
    pub(crate) store: &'a mut Store<T, O>,
    pub(crate) law: &'a T::Law,
    pub(crate) lag: u64,
}

impl<'a, T: Content, O: Outage> MemClient<'a, T, O> {
    /// A client without a lag.
    pub fn new(store: &'a mut Store<T, O>, law: &'a T::Law) -> MemClient<'a, T, O>
        ensures store { result.store.now ≡ store.old }
        ensures place { result.store.ghost_name ≡ store.entry.ghost_name }
        ensures law { result.law.now ≡ law.now }
        ensures lag { result.lag ≡ 0 }
    {
        MemClient { store, law, lag: 0 }
    }

    /// Makes the next get, other than of the saves, read so many versions back. With 0 it reads what stands.
    pub fn set_lag(&mut self, back: u64)
        ensures lag { self.new.lag ≡ back }
        ensures store { self.new.store.now ≡ self.old.store.now }
        ensures place { self.new.store.ghost_name ≡ self.old.store.ghost_name }
        ensures law { self.new.law.now ≡ self.old.law.now }
    {
        self.lag = back;
    }

    /// How many versions back its next get reads.
    pub fn lag(&self) -> u64
        ensures { result ≡ self.now.lag }
    {
        self.lag
    }

    // The lag of a get, which uses it up.
    fn take_lag(&mut self, key: &Key) -> u64
        ensures taken { result ≡ back_of key.now self.old.lag }
        ensures lag { self.new.lag ≡ lag_after key.now self.old.lag }
        ensures store { self.new.store.now ≡ self.old.store.now }
        ensures place { self.new.store.ghost_name ≡ self.old.store.ghost_name }
        ensures law { self.new.law.now ≡ self.old.law.now }
    {
        match key {
            Key::Caches => 0,
            Key::Workflow(_) | Key::Pod(_, _) | Key::Locks => {
                let lag = self.lag;
                self.lag = 0;
                lag
            }
        }
    }
}

impl<'a, T: Content, O: Outage> Client<T> for MemClient<'a, T, O> {
    ghost seen = { λ c. c.store.now.history };

    ghost law = { λ c. c.law.now };

    ghost others = { λ _. 0 };

    ghost lag = { λ c. c.lag };

    ghost faults = { λ c. O.faults c.store.now.outage };

    ghost in_row = { λ c. c.store.now.row };

    ghost rose = { FailedBy (λ c. O.faults c.store.now.outage) (λ c. c.store.now.row) 1 };

    ghost Place = { ℕ };

    ghost place = { λ c. c.store.ghost_name };

    fn get(&mut self, key: &Key) -> Result<Snapshot<T>, StoreRefused> {
        let lag = self.take_lag(key);
        let answer = if lag == 0 {
            self.store.get(key)
        } else {
            self.store.get_back(key, lag)
        };
        // Read for its clause alone: a list is shorter than 2^64, which bounds what was seen.
        let _length = self.store.len();
        answer
    }

    fn create(&mut self, key: Key, content: T, change: Entry) -> Result<Snapshot<T>, StoreRefused> {
        let answer = self.store.create(key, content, change);
        let _length = self.store.len();
        answer
    }

    fn write(
        &mut self,
        from: &Snapshot<T>,
        next: T,
        change: Entry,
    ) -> Result<Snapshot<T>, StoreRefused> {
        let answer = self.store.write(from, next, change);
        let _length = self.store.len();
        answer
    }

    fn tick(&mut self, to: u64) -> Result<(), StoreRefused> {
        let answer = self.store.tick(to);
        let _length = self.store.len();
        answer
    }
}
