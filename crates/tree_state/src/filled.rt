//! What stands below a node that has something below it.

ghost use Rattle.std.specs.Prelude.{◌≡◌, ◌+◌, ◌<◌, ◌^◌, ◌++◌, length, IfOk, OnOk, option_copied, option_map};
ghost use Rattle.std.specs.List.{find};
ghost use Rattle.meaning.specs.Lines.{nothing, row_in, then_parts, lines_below};
ghost use Rattle.meaning.specs.Trees.{nodes_in, wants_in, beginnings_in};
ghost use Rattle.tree_state.specs.Asking.{is_of, first};
ghost use Rattle.tree_state.specs.Finding.{passes, next_tick, pods_in, found_at};
ghost use Rattle.tree_state.specs.Replacing.{call_at, replaced};
ghost use Rattle.tree_state.specs.Telling.{told_with};
ghost use Rattle.tree_state.specs.Inside.Kids.{kid_parts};
ghost use Rattle.tree_state.specs.Inside.Sums.{sum_of};

use crate::chunk::{Chunk, shared_or_replaced};
use crate::finding::sooner;
use crate::state::Kid;
use crate::sum::Sum;
use crate::{NodeTest, Shared, State, Told, WantKind, WantTest};
use base_types::{List, Memory};
use std::alloc::Global;
use std::marker::Model;
use std::sync::Arc;
use tree_types::{Node, Path, Want};

/// What stands below a node, in tree order: chunks that versions of the node share, and what was added behind them.
#[cycle(state)]
#[derive(Debug)]
pub(crate) struct Filled {
    pub(crate) full: Vec<Arc<Chunk>>,
    pub(crate) last: Chunk,
    pub(crate) sum: Sum,
}

// Written out, so that proofs about code that drops what stands below a node see one call.
impl Drop for Filled {
    #[cycle(state)]
    fn drop(self) {
        let Filled {
            full: _,
            last: _,
            sum: _,
        } = self;
    }
}

impl Model for Filled {
    ghost use Rattle.std.specs.Prelude.{◌≡◌};
    ghost use Rattle.meaning.specs.Lines.{Parts, then_parts};
    ghost use Rattle.tree_state.specs.MadeCode.{parts_code};

    ghost Value = { Parts };

    ghost coded = { parts_code };

    ghost use Rattle.tree_state.specs.Inside.Chunks.{all_of};
    ghost use Rattle.tree_state.specs.Inside.Sums.{sum_of};

    ghost view = { λ a. then_parts (all_of a.full.items) a.last };

    ghost invariant = { λ a. a.sum ≡ sum_of (then_parts (all_of a.full.items) a.last) };

    ghost use Rattle.tree_state.specs.Inside.Sizes.{filled_size};

    ghost size = { filled_size };

    ghost use Rattle.std.proofs.Common.{arith};
    ghost use Rattle.tree_state.specs.Inside.LowerChunks.{chunks_are_lower, both_counted};

    ghost size_decreases = { λ a h. Prim.omega (arith, chunks_are_lower a.full.items, both_counted (all_of a.full.items) a.last) };
}

impl Filled {
    /// Nothing.
    pub(crate) fn new(alloc: Global) -> Filled
        ensures { result ≡ nothing }
    {
        Filled {
            full: Vec::new(alloc),
            last: Chunk::new(alloc),
            sum: Sum::nothing(),
        }
    }

    pub(crate) fn add(&mut self, kid: Kid) -> Result<(), Memory>
        ensures { OnOk result (self.new ≡ then_parts self.old (kid_parts kid)) }
    {
        self.make_room()?;
        self.put(kid)
    }

    fn make_room(&mut self) -> Result<(), Memory>
        ensures { self.new ≡ self.old }
    {
        if self.last.is_full() {
            self.seal()
        } else {
            Ok(())
        }
    }

    // Adds to the last chunk.
    fn put(&mut self, kid: Kid) -> Result<(), Memory>
        ensures { OnOk result (self.new ≡ then_parts self.old (kid_parts kid)) }
    {
        let more = kid.sum()?;
        let sum = self.sum.and(more)?;
        self.last.add(kid)?;
        self.sum = sum;
        Ok(())
    }

    // The last chunk goes to the others, and an empty one comes in its place.
    pub(crate) fn seal(&mut self) -> Result<(), Memory>
        ensures { self.new ≡ self.old }
    {
        let alloc = *self.full.allocator();
        let copy = self.last.copy()?;
        let last = Arc::new(alloc, copy)?;
        self.full.push(last)?;
        self.last = Chunk::new(alloc);
        Ok(())
    }

    /// What is kept of it.
    pub(crate) fn sum(&self) -> Sum
        ensures { result ≡ sum_of self.now }
    {
        self.sum
    }

    /// The call of this position among the calls.
    pub(crate) fn call_at(&self, position: usize) -> Option<&State>
        ensures { option_copied result ≡ call_at self.now position }
    {
        let mut left = position;
        for chunk in &self.full {
            let calls = chunk.calls();
            if left < calls {
                return chunk.call_at(left);
            }
            left -= calls;
        }
        self.last.call_at(left)
    }

    /// Adds the calls, each shared.
    pub(crate) fn add_calls(&self, calls: &mut List<Shared>) -> Result<(), Memory>
        ensures { OnOk result (calls.new ≡ calls.old ++ row_in self.now) }
    {
        for chunk in &self.full {
            chunk.add_calls(calls)?;
        }
        self.last.add_calls(calls)
    }

    /// The same over another call at this position. All other calls are shared, and all chunks but that of the call and the last.
    pub(crate) fn with_call(&self, position: usize, call: State) -> Result<Filled, Memory>
        ensures { IfOk result (λ below. below ≡ replaced self.now position call) }
    {
        let alloc = *self.full.allocator();
        let mut full = Vec::with_capacity(alloc, self.full.len())?;
        let mut sum = Sum::nothing();
        let mut left = position;
        let mut call = Some(call);
        for chunk in &self.full {
            let chunk = shared_or_replaced(chunk, &mut left, &mut call)?;
            sum = sum.and(chunk.sum())?;
            full.push(chunk)?;
        }
        let last = self.last.copied_or_replaced(&mut left, &mut call)?;
        let sum = sum.and(last.sum())?;
        Ok(Filled { full, last, sum })
    }

    #[cycle(first_want)]
    pub(crate) fn first_want(&self, kind: WantKind) -> Option<&Want>
        ensures { option_copied result ≡ find (is_of kind) (wants_in (lines_below self.now)) }
    {
        if !self.sum.asks.of(kind) {
            return None;
        }
        for chunk in &self.full {
            if let Some(want) = chunk.first_want(kind) {
                return Some(want);
            }
        }
        self.last.first_want(kind)
    }

    #[cycle(first_beginning)]
    pub(crate) fn first_beginning(&self) -> Option<&Path>
        ensures { option_copied result ≡ first (beginnings_in (lines_below self.now)) }
    {
        if !self.sum.asks.beginnings {
            return None;
        }
        for chunk in &self.full {
            if let Some(path) = chunk.first_beginning() {
                return Some(path);
            }
        }
        self.last.first_beginning()
    }

    #[cycle(tell)]
    pub(crate) fn tell(&self, told: &mut Told) -> Result<(), Memory>
        ensures { OnOk result (told.new ≡ told_with told.old (lines_below self.now)) }
    {
        for chunk in &self.full {
            chunk.tell(told)?;
        }
        self.last.tell(told)
    }

    #[cycle(find_want)]
    pub(crate) fn find_want<T: WantTest>(&self, kind: WantKind, test: &T) -> Option<&Want>
        ensures { option_copied result ≡ find (passes kind (T.accepts test.now)) (wants_in (lines_below self.now)) }
    {
        if !self.sum.asks.of(kind) {
            return None;
        }
        for chunk in &self.full {
            if let Some(want) = chunk.find_want(kind, test) {
                return Some(want);
            }
        }
        self.last.find_want(kind, test)
    }

    #[cycle(find_node)]
    pub(crate) fn find_node<T: NodeTest>(&self, test: &T) -> Option<&Node>
        ensures { option_copied result ≡ find (T.accepts test.now) (nodes_in (lines_below self.now)) }
    {
        for chunk in &self.full {
            if let Some(node) = chunk.find_node(test) {
                return Some(node);
            }
        }
        self.last.find_node(test)
    }

    #[cycle(next_timer)]
    pub(crate) fn next_timer(&self, clock: u64) -> Option<u64>
        ensures { result ≡ next_tick clock (wants_in (lines_below self.now)) }
    {
        if !self.sum.asks.of(WantKind::Timer) {
            return None;
        }
        let mut next = None;
        for chunk in &self.full {
            next = sooner(next, chunk.next_timer(clock));
        }
        sooner(next, self.last.next_timer(clock))
    }

    // The first pod that is found, where the first of all has a position.
    #[cycle(find_pod)]
    pub(crate) fn find_pod_at<T: WantTest>(
        &self,
        at: usize,
        from: usize,
        test: &T,
    ) -> Option<(usize, &Want)>
        requires { at + length (pods_in (wants_in (lines_below self.now))) < 2 ^ 64 }
        ensures { option_map (λ f. (f.0, f.1.now)) result
            ≡ found_at from at (T.accepts test.now) (pods_in (wants_in (lines_below self.now))) }
    {
        let pods = self.sum.pods as usize;
        if pods == 0 {
            return None;
        }
        if at + pods <= from {
            return None;
        }
        let mut next = at;
        for chunk in &self.full {
            if let Some(found) = chunk.find_pod_at(next, from, test) {
                return Some(found);
            }
            next += chunk.pods();
        }
        self.last.find_pod_at(next, from, test)
    }
}
