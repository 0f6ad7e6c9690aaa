//! The facts of one workflow, in order.

ghost use Rattle.std.specs.Prelude.{◌≡◌, [], ◌∷◌, ◌++◌, false, IsTrue, OnOk, OnErr};

use crate::{Fact, Facts};
use base_types::{Memory, TryCopy};
use std::alloc::Global;
use std::marker::Model;

/// A list of facts with at most one of a kind per path.
#[derive(Debug, Drop)]
pub struct Journal {
    facts: Facts,
}

impl Model for Journal {
    ghost use Rattle.std.specs.Prelude.{List, IsTrue};
    ghost use Rattle.tree_types.specs.declared.fact.Fact.{Fact};
    ghost use Rattle.tree_types.specs.Journals.{is_journal};

    ghost Value = { List Fact };

    ghost view = { λ journal. journal.facts };

    ghost invariant = { λ journal. IsTrue (is_journal journal.facts) };
}

impl Journal {
    ghost use Rattle.tree_types.specs.Journals.{knows, is_journal};

    /// The empty journal, which takes no memory.
    pub fn new(alloc: Global) -> Journal
        ensures { result ≡ [] }
    {
        Journal {
            facts: Facts::new(alloc),
        }
    }

    /// Adds a fact at the end, of a kind and path that the journal does not know.
    pub fn add(&mut self, fact: Fact) -> Result<(), Memory>
        requires { knows self.old fact ≡ false }
        ensures ok { OnOk result (self.new ≡ self.old ++ fact ∷ []) }
        ensures err { OnErr result (self.new ≡ self.old) }
    {
        self.facts.push(fact)
    }

    /// The facts in the order in which they were added.
    pub fn facts(&self) -> &Facts
        ensures same { result.now ≡ self.now }
        ensures once { IsTrue (is_journal result.now) }
    {
        &self.facts
    }
}

impl TryCopy for Journal {
    fn copy(&self) -> Result<Journal, Memory> {
        Ok(Journal {
            facts: self.facts.copy()?,
        })
    }
}
