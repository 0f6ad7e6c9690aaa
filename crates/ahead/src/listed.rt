//! What is left, once it is listed.

ghost use Rattle.std.specs.Prelude.{◌≡◌, ◌&&◌, ◌↔◌, ◌≤◌, None, Some, [], List as Seq, drop, length, IsTrue, IfOk, option_copied, option_map};
ghost use Rattle.std.specs.List.{find};
ghost use Rattle.tree_types.specs.declared.want.Want.{Want as Wanted};
ghost use Rattle.meaning.specs.Trees as trees;
ghost use Rattle.tree_state.specs.Asking.{is_of};
ghost use Rattle.tree_state.specs.declared.kinds.WantKind.{WantKind as Kind};
ghost use Rattle.ahead.specs.Left.{IsAhead, AheadOf, FindsBy};

use base_types::Memory;
use std::alloc::Global;
use std::marker::Model;
use tree_incr::{TreeState, WantKind, WantTest};
use tree_types::{Want, Wants};

// So many steps are made in a row before what is left is listed, since all that is asked for is gone through to list it.
const STRIDE: u32 = 16;

/// What is asked for of a kind and left to be done, in tree order. Contracts see the list, or that it is not known.
#[derive(Drop)]
pub struct Ahead {
    listed: Option<Wants>,
    // How many of these are done, from the first.
    done: usize,
    // How many steps were made while it was not known.
    since: u32,
}

impl Model for Ahead {
    ghost use Rattle.std.specs.Prelude.{List as Seq, Option, option_map, drop, length, ◌≤◌, IfSome};
    ghost use Rattle.tree_types.specs.declared.want.Want.{Want as Wanted};

    ghost Value = { Option (Seq Wanted) };

    ghost view = { λ a. option_map (drop a.done) a.listed };

    ghost invariant = { λ a. IfSome a.listed (λ all. a.done ≤ length all) };
}

impl Ahead {
    /// It is not known what is left.
    pub fn unknown() -> Ahead
        ensures { result ≡ None }
    {
        Ahead {
            listed: None,
            done: 0,
            since: 0,
        }
    }

    /// Nothing is left.
    pub fn nothing(alloc: Global) -> Ahead
        ensures { result ≡ Some [] }
    {
        Ahead {
            listed: Some(Wants::new(alloc)),
            done: 0,
            since: 0,
        }
    }

    /// Whether nothing is known to be left.
    pub fn is_nothing(&self) -> bool
        ensures { IsTrue result ↔ (self.now ≡ Some []) }
    {
        match self.list() {
            None => false,
            Some(left) => left.is_empty(),
        }
    }

    // What is left, where it is known.
    fn list(&self) -> Option<&[Want]>
        ensures { option_copied result ≡ self.now }
    {
        match &self.listed {
            None => None,
            Some(all) => Some(&all.as_slice()[self.done..]),
        }
    }

    /// The first want of a kind that passes a test, in tree order: the first of the list, where what is left is known.
    pub fn first<'a, T: WantTest>(
        &'a self,
        kind: WantKind,
        state: &'a TreeState,
        test: &T,
    ) -> Option<&'a Want>
        requires { FindsBy kind (T.accepts test.now) self.now
            (trees.wants state.now.manifest state.now.facts) }
        ensures { option_copied result ≡ find (λ a. is_of kind a && T.accepts test.now a)
            (trees.wants state.now.manifest state.now.facts) }
    {
        match self.list() {
            None => state.find_want(kind, test),
            Some(left) => first_in(left, test),
        }
    }

    /// What is left after one more step in a row, by the test that tells what is. At times it is listed, where it is not known.
    pub fn moved<T: WantTest>(
        self,
        kind: WantKind,
        left: &T,
        state: &TreeState,
    ) -> Result<Ahead, Memory>
        requires { AheadOf kind (T.accepts left.now) self
            (trees.wants state.now.manifest state.now.facts) }
        ensures { IfOk result (λ ahead. AheadOf kind (T.accepts left.now) ahead
            (trees.wants state.now.manifest state.now.facts)) }
    {
        if self.listed.is_some() {
            return Ok(self.passed(left));
        }
        if self.since < STRIDE {
            return Ok(Ahead {
                listed: None,
                done: 0,
                since: self.since + 1,
            });
        }
        let all = state.wants_of(kind)?;
        Ok(Ahead::of(all).passed(left))
    }

    // All of these are left.
    fn of(all: Wants) -> Ahead
        ensures { result ≡ Some all }
    {
        Ahead {
            listed: Some(all),
            done: 0,
            since: 0,
        }
    }

    // Without those that are done at the front.
    fn passed<T: WantTest>(self, left: &T) -> Ahead
        ensures { (k : Kind) (ws : Seq Wanted) → AheadOf k (T.accepts left.now) self ws
            → AheadOf k (T.accepts left.now) result ws }
    {
        let Ahead {
            listed,
            done,
            since: _,
        } = self;
        match listed {
            None => Ahead::unknown(),
            Some(all) => {
                let done = first_left(all.as_slice(), done, left);
                Ahead {
                    listed: Some(all),
                    done,
                    since: 0,
                }
            }
        }
    }
}

// The first of these that passes a test.
fn first_in<'a, T: WantTest>(wants: &'a [Want], test: &T) -> Option<&'a Want>
    ensures { option_copied result ≡ find (T.accepts test.now) wants.now }
{
    for want in wants {
        if test.accepts(want) {
            return Some(want);
        }
    }
    None
}

// Where the first stands that is left, from a position on.
fn first_left<T: WantTest>(wants: &[Want], from: usize, left: &T) -> usize
    requires { from ≤ length wants.now }
    ensures few { result ≤ length wants.now }
    ensures same { (k : Kind) (ws : Seq Wanted) → IsAhead k (T.accepts left.now) (drop from wants.now) ws
        → IsAhead k (T.accepts left.now) (drop result wants.now) ws }
{
    for at in from..wants.len() {
        if left.accepts(&wants[at]) {
            return at;
        }
    }
    wants.len()
}
