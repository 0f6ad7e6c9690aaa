//! A text.

ghost use Rattle.std.specs.Prelude.{◌≡◌, ℕ, ◌↔◌, List as Seq, [], ◌++◌, string_bytes, length, IsTrue, Some, IfOk, OnOk, OnErr};
ghost use Rattle.std.specs.Prelude.{◌==◌};
ghost use Rattle.std.proofs.Common.{rules};
ghost use Rattle.std.specs.Hash as fed;
ghost use Rattle.std.specs.Cmp.{partial_order_from_own_ties};
ghost use Rattle.std.specs.Cmp.Rules.{comparing, hashing};
ghost use Rattle.std.specs.Cmp.Lexicographic.{slice_cmp, pointwise};
ghost use Rattle.std.specs.Ordering.{nat_cmp, as_partial_cmp};

use crate::{List, Memory, TryCopy};
use std::alloc::Global;
use std::cmp::Ordering;
use std::fmt;
use std::hash::{Hash, Hasher};
use std::marker::Model;
use std::sync::Arc;

/// UTF-8 that its copies share, and that contracts see as the list of its bytes.
#[derive(Debug, Drop)]
pub struct Text {
    inner: Arc<String>,
}

/// A list of texts.
pub type Names = List<Text>;

impl Model for Text {
    ghost Value = { Seq ℕ };

    ghost view = { λ text. string_bytes text.inner.value };
}

impl Text {
    /// The empty text.
    pub fn new(alloc: Global) -> Result<Self, Memory>
        ensures { IfOk result (λ text. text ≡ []) }
    {
        Text::from_string(String::new(alloc))
    }

    /// A text of the same bytes.
    pub fn from_text(alloc: Global, text: &str) -> Result<Self, Memory>
        ensures { IfOk result (λ copy. copy ≡ text.now) }
    {
        Text::from_string(String::from_str(alloc, text)?)
    }

    /// The text of a string, whose memory it keeps.
    pub fn from_string(string: String) -> Result<Self, Memory>
        ensures { IfOk result (λ text. text ≡ string_bytes string) }
    {
        let alloc = *string.allocator();
        Ok(Text {
            inner: Arc::new(alloc, string)?,
        })
    }

    /// The text as a string, with the text's memory where no copy shares it.
    pub fn into_string(self) -> Result<String, Memory>
        ensures { IfOk result (λ string. string_bytes string ≡ self) }
    {
        match Arc::try_unwrap(self.inner) {
            Ok(string) => Ok(string),
            Err(shared) => Ok((*shared).clone()?),
        }
    }

    pub fn as_str(&self) -> &str
        ensures { result.now ≡ self.now }
    {
        self.inner.as_str()
    }

    pub fn len(&self) -> usize
        ensures { result ≡ length self.now }
    {
        self.inner.len()
    }

    pub fn is_empty(&self) -> bool
        ensures { IsTrue result ↔ (self.now ≡ []) }
    {
        self.inner.is_empty()
    }

    /// Adds a text at the end.
    pub fn push(&mut self, more: &str) -> Result<(), Memory>
        ensures ok { OnOk result (self.new ≡ self.old ++ more.now) }
        ensures err { OnErr result (self.new ≡ self.old) }
    {
        match Arc::get_mut(&mut self.inner) {
            Some(string) => {
                string.push_str(more)?;
            }
            None => {
                let mut string = String::from_str(self.allocator(), self.as_str())?;
                string.push_str(more)?;
                *self = Text::from_string(string)?;
            }
        }
        Ok(())
    }

    /// The allocator that the text keeps.
    pub fn allocator(&self) -> Global {
        *self.inner.allocator()
    }
}

impl TryCopy for Text {
    fn copy(&self) -> Result<Text, Memory> {
        Ok(Text {
            inner: Arc::try_clone(&self.inner)?,
        })
    }
}

impl fmt::Display for Text {
    ghost output = { λ text. Some text };

    fn fmt<W: fmt::Write>(&self, f: &mut fmt::Formatter<W>) -> fmt::Result {
        f.write_str(self.as_str())
    }
}

impl PartialEq for Text {
    ghost eq = { pointwise ◌==◌ };

    ghost laws = { Prim.search (comparing, rules) };

    fn eq(&self, other: &Text) -> bool {
        self.as_str() == other.as_str()
    }
}

impl Eq for Text {
    ghost laws = { Prim.search (comparing, rules) };
}

impl PartialOrd for Text {
    ghost partial_cmp = { as_partial_cmp (slice_cmp nat_cmp) };

    ghost laws = { partial_order_from_own_ties (Prim.search (comparing, rules)) (Prim.search (comparing, rules)) };

    fn partial_cmp(&self, other: &Text) -> Option<Ordering> {
        Some(self.cmp(other))
    }
}

impl Ord for Text {
    ghost cmp = { slice_cmp nat_cmp };

    ghost total = { Prim.search (comparing, rules) };

    ghost matches_partial_cmp = { Prim.search (comparing, rules) };

    ghost matches_eq = { Prim.search (comparing, rules) };

    fn cmp(&self, other: &Text) -> Ordering {
        self.as_str().cmp(other.as_str())
    }
}

impl Hash for Text {
    ghost hash_input = { λ text. fed.str text };

    ghost respects_eq = { Prim.search (hashing, rules) };

    fn hash<H: Hasher>(&self, state: &mut H) {
        self.as_str().hash(state);
    }
}
