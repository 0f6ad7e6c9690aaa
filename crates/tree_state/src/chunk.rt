//! Some of what stands below a node.

ghost use Rattle.std.specs.Prelude.{◌≡◌, ◌+◌, ◌<◌, ◌^◌, ◌++◌, length, IfOk, OnOk, OnErr, option_copied, option_map};
ghost use Rattle.std.specs.List.{find};
ghost use Rattle.meaning.specs.Lines as lines;
ghost use Rattle.meaning.specs.Lines.{nothing, then_parts, row_in, lines_below, Parts};
ghost use Rattle.meaning.specs.Trees.{nodes_in, wants_in, beginnings_in};
ghost use Rattle.tree_state.specs.Asking.{is_of, first};
ghost use Rattle.tree_state.specs.Finding.{passes, next_tick, pods_in, found_at};
ghost use Rattle.tree_state.specs.Replacing.{call_at};
ghost use Rattle.tree_state.specs.Telling.{told_with};
ghost use Rattle.tree_state.specs.Inside.Kids.{kid_parts, replaced_by};
ghost use Rattle.tree_state.specs.Inside.Sums.{sum_of};

use crate::finding::sooner;
use crate::state::Kid;
use crate::sum::Sum;
use crate::{NodeTest, Shared, State, Told, WantKind, WantTest};
use base_types::{List, Memory, TryCopy};
use std::alloc::Global;
use std::marker::Model;
use std::sync::Arc;
use tree_types::{Node, Path, Phase, Want};

// How many kids a chunk has: as many as lie in less than the thousand and some bytes above which the C library takes a request
// for a large one, and first merges all that was freed.
pub(crate) const ROOM: usize = 31;

/// Some of what stands below a node, in tree order, which versions of the node share.
#[cycle(state)]
#[derive(Debug)]
pub(crate) struct Chunk {
    pub(crate) kids: Vec<Kid>,
    pub(crate) sum: Sum,
}

// Written out, so that proofs about code that drops a chunk see one call.
impl Drop for Chunk {
    #[cycle(state)]
    fn drop(self) {
        let Chunk { kids: _, sum: _ } = self;
    }
}

impl Model for Chunk {
    ghost use Rattle.std.specs.Prelude.{◌≡◌};
    ghost use Rattle.meaning.specs.Lines.{Parts};
    ghost use Rattle.tree_state.specs.MadeCode.{parts_code};

    ghost Value = { Parts };

    ghost coded = { parts_code };

    ghost use Rattle.tree_state.specs.Inside.Kids.{parts_of};
    ghost use Rattle.tree_state.specs.Inside.Sums.{sum_of};

    ghost view = { λ a. parts_of a.kids.items };

    ghost invariant = { λ a. a.sum ≡ sum_of (parts_of a.kids.items) };

    ghost use Rattle.tree_state.specs.Inside.Sizes.{chunk_size};

    ghost size = { chunk_size };

    ghost use Rattle.std.proofs.Common.{arith};
    ghost use Rattle.tree_state.specs.Inside.Lower.{kids_are_lower};

    ghost size_decreases = { λ a h. Prim.omega (arith, kids_are_lower a.kids.items) };
}

impl Chunk {
    /// Nothing.
    pub(crate) fn new(alloc: Global) -> Chunk
        ensures { result ≡ nothing }
    {
        Chunk {
            kids: Vec::new(alloc),
            sum: Sum::nothing(),
        }
    }

    // Nothing, with room for so many kids.
    pub(crate) fn with_room(alloc: Global, room: usize) -> Result<Chunk, Memory>
        ensures { IfOk result (λ chunk. chunk ≡ nothing) }
    {
        Ok(Chunk {
            kids: Vec::with_capacity(alloc, room)?,
            sum: Sum::nothing(),
        })
    }

    /// The allocator that it is on.
    pub(crate) fn allocator(&self) -> Global {
        *self.kids.allocator()
    }

    pub(crate) fn is_full(&self) -> bool {
        self.kids.len() >= ROOM
    }

    /// What is kept of it.
    pub(crate) fn sum(&self) -> Sum
        ensures { result ≡ sum_of self.now }
    {
        self.sum
    }

    /// How many calls stand in it.
    pub(crate) fn calls(&self) -> usize
        ensures all { result ≡ length (row_in self.now) }
        ensures few { result < 2 ^ 32 }
    {
        self.sum.calls as usize
    }

    pub(crate) fn pods(&self) -> usize
        ensures all { result ≡ length (pods_in (wants_in (lines_below self.now))) }
        ensures few { result < 2 ^ 32 }
    {
        self.sum.pods as usize
    }

    pub(crate) fn add(&mut self, kid: Kid) -> Result<(), Memory>
        ensures ok { OnOk result (self.new ≡ then_parts self.old (kid_parts kid)) }
        ensures err { OnErr result (self.new ≡ self.old) }
    {
        let more = kid.sum()?;
        let sum = self.sum.and(more)?;
        self.kids.push(kid)?;
        self.sum = sum;
        Ok(())
    }

    pub(crate) fn copy(&self) -> Result<Chunk, Memory>
        ensures { IfOk result (λ chunk. chunk ≡ self.now) }
    {
        let mut kids = Vec::with_capacity(self.allocator(), self.kids.len())?;
        for kid in &self.kids {
            kids.push(kid.shared()?)?;
        }
        Ok(Chunk {
            kids,
            sum: self.sum,
        })
    }

    /// The chunk, with the call in its place if it is the one to be replaced: the one behind so many calls that are left.
    pub(crate) fn or_replaced(
        &self,
        left: &mut usize,
        call: &mut Option<State>,
    ) -> Result<Chunk, Memory>
        ensures { IfOk result (λ chunk. (rest : Parts) →
            then_parts chunk (replaced_by rest left.new call.new)
            ≡ replaced_by (then_parts self.now rest) left.old call.old) }
    {
        let mut chunk = Chunk::with_room(self.allocator(), self.kids.len())?;
        for kid in &self.kids {
            chunk.add(kid.or_replaced(left, call)?)?;
        }
        Ok(chunk)
    }

    /// The same, where the call may be in its place already.
    pub(crate) fn copied_or_replaced(
        &self,
        left: &mut usize,
        call: &mut Option<State>,
    ) -> Result<Chunk, Memory>
        ensures { IfOk result (λ chunk. (rest : Parts) →
            then_parts chunk (replaced_by rest left.new call.new)
            ≡ replaced_by (then_parts self.now rest) left.old call.old) }
    {
        if call.is_none() {
            return self.copy();
        }
        self.or_replaced(left, call)
    }

    /// The call of this position among the calls of the chunk.
    pub(crate) fn call_at(&self, position: usize) -> Option<&State>
        ensures { option_copied result ≡ call_at self.now position }
    {
        // Mostly each kid is a call.
        if self.sum.calls as usize == self.kids.len() {
            return match self.kids.get(position) {
                None => None,
                Some(kid) => match &kid.state {
                    None => None,
                    Some(state) => Some(&state.state),
                },
            };
        }
        let mut left = position;
        for kid in &self.kids {
            if let Some(state) = &kid.state {
                if left == 0 {
                    return Some(&state.state);
                }
                left -= 1;
            }
        }
        None
    }

    /// Adds the calls, each shared.
    pub(crate) fn add_calls(&self, calls: &mut List<Shared>) -> Result<(), Memory>
        ensures { OnOk result (calls.new ≡ calls.old ++ row_in self.now) }
    {
        for kid in &self.kids {
            if let Some(state) = &kid.state {
                let state = Arc::try_clone(state)?;
                calls.push(Shared { state })?;
            }
        }
        Ok(())
    }

    #[cycle(first_want)]
    pub(crate) fn first_want(&self, kind: WantKind) -> Option<&Want>
        ensures { option_copied result ≡ find (is_of kind) (wants_in (lines_below self.now)) }
    {
        if !self.sum.asks.of(kind) {
            return None;
        }
        for kid in &self.kids {
            if let Some(want) = kid.first_want(kind) {
                return Some(want);
            }
        }
        None
    }

    #[cycle(first_beginning)]
    pub(crate) fn first_beginning(&self) -> Option<&Path>
        ensures { option_copied result ≡ first (beginnings_in (lines_below self.now)) }
    {
        if !self.sum.asks.beginnings {
            return None;
        }
        for kid in &self.kids {
            if let Some(path) = kid.first_beginning() {
                return Some(path);
            }
        }
        None
    }

    #[cycle(tell)]
    pub(crate) fn tell(&self, told: &mut Told) -> Result<(), Memory>
        ensures { OnOk result (told.new ≡ told_with told.old (lines_below self.now)) }
    {
        for kid in &self.kids {
            kid.tell(told)?;
        }
        Ok(())
    }

    #[cycle(find_want)]
    pub(crate) fn find_want<T: WantTest>(&self, kind: WantKind, test: &T) -> Option<&Want>
        ensures { option_copied result ≡ find (passes kind (T.accepts test.now)) (wants_in (lines_below self.now)) }
    {
        if !self.sum.asks.of(kind) {
            return None;
        }
        for kid in &self.kids {
            if let Some(want) = kid.find_want(kind, test) {
                return Some(want);
            }
        }
        None
    }

    #[cycle(find_node)]
    pub(crate) fn find_node<T: NodeTest>(&self, test: &T) -> Option<&Node>
        ensures { option_copied result ≡ find (T.accepts test.now) (nodes_in (lines_below self.now)) }
    {
        for kid in &self.kids {
            if let Some(node) = kid.find_node(test) {
                return Some(node);
            }
        }
        None
    }

    #[cycle(next_timer)]
    pub(crate) fn next_timer(&self, clock: u64) -> Option<u64>
        ensures { result ≡ next_tick clock (wants_in (lines_below self.now)) }
    {
        if !self.sum.asks.of(WantKind::Timer) {
            return None;
        }
        let mut next = None;
        for kid in &self.kids {
            next = sooner(next, kid.next_timer(clock));
        }
        next
    }

    // The first pod that is found, where the first of all has a position.
    #[cycle(find_pod)]
    pub(crate) fn find_pod_at<T: WantTest>(
        &self,
        at: usize,
        from: usize,
        test: &T,
    ) -> Option<(usize, &Want)>
        requires { at + length (pods_in (wants_in (lines_below self.now))) < 2 ^ 64 }
        ensures { option_map (λ f. (f.0, f.1.now)) result
            ≡ found_at from at (T.accepts test.now) (pods_in (wants_in (lines_below self.now))) }
    {
        let pods = self.sum.pods as usize;
        if pods == 0 {
            return None;
        }
        if at + pods <= from {
            return None;
        }
        let mut next = at;
        for kid in &self.kids {
            let pods = kid.pods();
            if pods == 0 {
                continue;
            }
            if let Some(found) = kid.find_pod_at(next, from, test) {
                return Some(found);
            }
            next += pods;
        }
        None
    }
}

/// The chunk, shared where no call of it is to be replaced, with the call in its place where one is.
pub(crate) fn shared_or_replaced(
    chunk: &Arc<Chunk>,
    left: &mut usize,
    call: &mut Option<State>,
) -> Result<Arc<Chunk>, Memory>
    ensures { IfOk result (λ new. (rest : Parts) →
        then_parts new.value (replaced_by rest left.new call.new)
        ≡ replaced_by (then_parts chunk.now.value rest) left.old call.old) }
{
    if call.is_none() {
        return Ok(Arc::try_clone(chunk)?);
    }
    let calls = chunk.calls();
    if *left >= calls {
        *left -= calls;
        return Ok(Arc::try_clone(chunk)?);
    }
    Ok(Arc::new(chunk.allocator(), chunk.or_replaced(left, call)?)?)
}
