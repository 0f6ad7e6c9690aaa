//! Facts in order and by their paths.

ghost use Rattle.std.specs.Prelude.{◌≡◌, [], ◌∷◌, ◌++◌, ◌<◌, length, IfOk, OnOk, OnErr, slice_get, option_copied};
ghost use Rattle.std.specs.List.{find};
ghost use Rattle.tree_types.specs.Journals.{knows};
ghost use Rattle.buckets.specs.Buckets.{buckets};
ghost use Rattle.shared_facts.specs.Inside.Kinds.{is_of};
ghost use Rattle.shared_facts.specs.Inside.Tables.{bucket_of};

use crate::key::key_of;
use crate::kind::{Kind, is_of, kind_of, sels_of};
use base_types::{Memory, TryCopy};
use buckets::BUCKETS;
use sharing::{Shared, SharedList};
use std::alloc::Global;
use std::marker::Model;
use tree_types::{Fact, Sel};

/// The facts of the paths that belong to one bucket, in order.
type Bucket = SharedList<Fact>;

/// The facts of a workflow in order and by their paths. Copies share what they have in common.
#[derive(Debug, Drop)]
pub struct SharedFacts {
    facts: SharedList<Fact>,
    table: SharedList<Bucket>,
}

impl Model for SharedFacts {
    ghost use Rattle.std.specs.Prelude.{List};
    ghost use Rattle.tree_types.specs.declared.fact.Fact.{Fact};
    ghost use Rattle.shared_facts.specs.Inside.Tables.{IsTabled};

    ghost Value = { List Fact };

    ghost view = { λ shared. shared.facts };

    ghost invariant = { λ shared. IsTabled shared.facts shared.table };
}

impl SharedFacts {
    pub fn new(alloc: Global) -> Result<SharedFacts, Memory>
        ensures { IfOk result (λ facts. facts ≡ []) }
    {
        let empty = SharedList::new(alloc)?;
        Ok(SharedFacts {
            facts: SharedList::new(alloc)?,
            table: SharedList::filled(alloc, empty, BUCKETS)?,
        })
    }

    /// The same facts, at a cost that does not grow with them.
    pub fn share(&self) -> Result<SharedFacts, Memory>
        ensures { IfOk result (λ facts. facts ≡ self.now) }
    {
        Ok(SharedFacts {
            facts: self.facts.share()?,
            table: self.table.share()?,
        })
    }

    pub fn len(&self) -> usize
        ensures { result ≡ length self.now }
    {
        self.facts.len()
    }

    /// The fact at a position from 0.
    pub fn get(&self, position: usize) -> Option<&Fact>
        ensures { option_copied result ≡ slice_get self.now position }
    {
        self.facts.get(position)
    }

    /// Adds a fact at the end. Where there is no memory, the fact is dropped.
    pub fn add(&mut self, fact: Fact) -> Result<(), Memory>
        ensures ok { OnOk result (self.new ≡ self.old ++ fact ∷ []) }
        ensures err { OnErr result (self.new ≡ self.old) }
    {
        let key = key_of(sels_of(&fact));
        let fact = Shared::new(self.facts.allocator(), fact)?;
        let mut bucket = self.bucket(key).share()?;
        bucket.push_shared(fact.copy()?)?;
        let mut facts = self.facts.share()?;
        facts.push_shared(fact)?;
        self.table.set(key, bucket)?;
        self.facts = facts;
        Ok(())
    }

    /// Whether there is a fact of the kind and path of this one.
    pub fn knows(&self, fact: &Fact) -> bool
        ensures { result ≡ knows self.now fact.now }
    {
        self.first(kind_of(fact), sels_of(fact)).is_some()
    }

    /// The first fact of a kind and path.
    pub(crate) fn first(&self, kind: Kind, sels: &[Sel]) -> Option<&Fact>
        ensures { option_copied result ≡ find (is_of kind sels.now) self.now }
    {
        first_in(self.bucket(key_of(sels)), kind, sels)
    }

    fn bucket(&self, key: usize) -> &Bucket
        requires { key < buckets }
        ensures { result.now ≡ bucket_of key self.now }
    {
        self.table.get(key).unwrap()
    }
}

fn first_in<'a>(bucket: &'a Bucket, kind: Kind, sels: &[Sel]) -> Option<&'a Fact>
    ensures { option_copied result ≡ find (is_of kind sels.now) bucket.now }
{
    for position in 0..bucket.len() {
        let fact = bucket.get(position).unwrap();
        if is_of(fact, kind, sels) {
            return Some(fact);
        }
    }
    None
}
