//! What stands below a node.

ghost use Rattle.std.specs.Prelude.{◌≡◌, ◌+◌, ◌<◌, ◌^◌, [], ◌∷◌, ◌++◌, length, IfOk, OnOk, option_copied, option_map};
ghost use Rattle.std.specs.List.{find};
ghost use Rattle.meaning.specs.Lines as lines;
ghost use Rattle.meaning.specs.Lines.{nothing, may_begin, asks, row_of, row_in, then_parts, lines_below};
ghost use Rattle.meaning.specs.Trees.{nodes_in, wants_in, beginnings_in};
ghost use Rattle.tree_state.specs.Asking.{is_of, first};
ghost use Rattle.tree_state.specs.Counting.{count_below};
ghost use Rattle.tree_state.specs.Finding.{passes, next_tick, pods_in, locks_in, found_at};
ghost use Rattle.tree_state.specs.Replacing.{call_at, replaced, some_succeeded, all_fell};
ghost use Rattle.tree_state.specs.Telling.{told_with};
ghost use Rattle.tree_state.specs.Inside.Kids.{own_line, kid_parts};
ghost use Rattle.tree_state.specs.Inside.Sums.{sum_of};

use crate::filled::Filled;
use crate::state::{Kid, Line, Summed};
use crate::sum::Sum;
use crate::{NodeTest, Shared, State, Told, WantKind, WantTest};
use base_types::{List, Memory};
use std::alloc::Global;
use std::marker::Model;
use std::sync::Arc;
use tree_types::{Node, Path, Want};

/// What there is of it. A call alone needs neither a box nor a chunk.
#[cycle(state)]
#[derive(Debug, Drop)]
pub(crate) enum Stock {
    Nothing,
    One(Arc<Summed>),
    Many(Box<Filled>),
}

/// What stands below a node, in tree order. It takes little room of its own: most nodes are pods, with nothing below, and each move
/// of a state would copy the room of what they lack.
#[cycle(state)]
#[derive(Debug)]
pub struct Below {
    pub(crate) stock: Stock,
    pub(crate) alloc: Global,
}

// Written out, so that proofs about code that drops what stands below a node see one call.
impl Drop for Below {
    #[cycle(state)]
    fn drop(self) {
        let Below { stock: _, alloc: _ } = self;
    }
}

impl Model for Below {
    ghost use Rattle.std.specs.Prelude.{◌≡◌};
    ghost use Rattle.meaning.specs.Lines.{Parts};
    ghost use Rattle.tree_state.specs.MadeCode.{parts_code};

    ghost Value = { Parts };

    ghost coded = { parts_code };

    ghost use Rattle.tree_state.specs.Inside.Stocks.{in_stock};

    ghost view = { λ a. in_stock a.stock };

    ghost use Rattle.tree_state.specs.Inside.Sizes.{below_size};

    ghost size = { below_size };

    ghost use Rattle.std.proofs.Common.{arith};

    ghost size_decreases = { λ a h. Prim.grind arith };
}

impl Below {
    /// Nothing.
    pub fn new(alloc: Global) -> Below
        ensures { result ≡ nothing }
    {
        Below {
            stock: Stock::Nothing,
            alloc,
        }
    }

    // The same, put behind a box.
    pub(crate) fn of(alloc: Global, filled: Filled) -> Result<Below, Memory>
        ensures { IfOk result (λ below. below ≡ filled) }
    {
        let stock = Stock::Many(Box::new(alloc, filled)?);
        Ok(Below { stock, alloc })
    }

    /// Adds what a call made.
    pub fn push(&mut self, state: State) -> Result<(), Memory>
        ensures { OnOk result (self.new ≡ then_parts self.old (row_of (state ∷ []))) }
    {
        self.push_shared(Shared::new(state)?)
    }

    /// Adds what a call made, which is shared.
    pub fn push_shared(&mut self, state: Shared) -> Result<(), Memory>
        ensures { OnOk result (self.new ≡ then_parts self.old (row_of (state ∷ []))) }
    {
        match &self.stock {
            Stock::Nothing => {
                self.stock = Stock::One(state.into_arc());
                Ok(())
            }
            Stock::One(_) | Stock::Many(_) => self.add(Kid::of_shared(state)),
        }
    }

    /// Adds a task that is ready, and whose beginning may be recorded.
    pub fn may_begin(&mut self, path: Path) -> Result<(), Memory>
        ensures { OnOk result (self.new ≡ then_parts self.old (may_begin path nothing)) }
    {
        self.line(Line::MayBegin(path))
    }

    /// Adds what the node asks for behind the calls before.
    pub fn asks(&mut self, want: Want) -> Result<(), Memory>
        ensures { OnOk result (self.new ≡ then_parts self.old (asks want nothing)) }
    {
        self.line(Line::Asks(want))
    }

    fn line(&mut self, line: Line) -> Result<(), Memory>
        ensures { OnOk result (self.new ≡ then_parts self.old (own_line line nothing)) }
    {
        let line = Some(Arc::new(self.alloc, line)?);
        self.add(Kid { line, state: None })
    }

    pub(crate) fn add(&mut self, kid: Kid) -> Result<(), Memory>
        ensures { OnOk result (self.new ≡ then_parts self.old (kid_parts kid)) }
    {
        match &mut self.stock {
            Stock::Nothing => self.add_behind(Filled::new(self.alloc), kid),
            Stock::One(state) => {
                let first = Kid::of_shared(Shared {
                    state: Arc::try_clone(state)?,
                });
                let mut filled = Filled::new(self.alloc);
                filled.add(first)?;
                self.add_behind(filled, kid)
            }
            Stock::Many(filled) => filled.add(kid),
        }
    }

    // What stands below the node is this, and the kid behind it.
    fn add_behind(&mut self, filled: Filled, kid: Kid) -> Result<(), Memory>
        ensures { OnOk result (self.new ≡ then_parts filled (kid_parts kid)) }
    {
        let mut filled = filled;
        filled.add(kid)?;
        self.stock = Stock::Many(Box::new(self.alloc, filled)?);
        Ok(())
    }

    /// How many nodes stand there.
    pub(crate) fn nodes(&self) -> usize
        ensures all { result ≡ count_below self.now }
        ensures few { result < 2 ^ 32 }
    {
        self.sum().nodes as usize
    }

    /// For how many pods is asked there.
    pub(crate) fn pods(&self) -> usize
        ensures all { result ≡ length (pods_in (wants_in (lines_below self.now))) }
        ensures few { result < 2 ^ 32 }
    {
        self.sum().pods as usize
    }

    /// For how many locks is asked there.
    pub(crate) fn locks(&self) -> usize
        ensures all { result ≡ length (locks_in (wants_in (lines_below self.now))) }
        ensures few { result < 2 ^ 32 }
    {
        self.sum().locks as usize
    }

    /// How many calls stand there.
    pub(crate) fn calls(&self) -> usize
        ensures { result ≡ length (row_in self.now) }
    {
        self.sum().calls as usize
    }

    /// What is kept of it.
    pub(crate) fn sum(&self) -> Sum
        ensures { result ≡ sum_of self.now }
    {
        match &self.stock {
            Stock::Nothing => Sum::nothing(),
            Stock::One(state) => state.sum(),
            Stock::Many(filled) => filled.sum(),
        }
    }

    /// Whether all calls are finished.
    pub(crate) fn all_finished(&self) -> bool
        ensures { result ≡ lines.all_finished (row_in self.now) }
    {
        self.sum().finished
    }

    /// The call of this position among the calls.
    pub(crate) fn call_at(&self, position: usize) -> Option<&State>
        ensures { option_copied result ≡ call_at self.now position }
    {
        match &self.stock {
            Stock::Nothing => None,
            Stock::One(state) => first_alone(state, position),
            Stock::Many(filled) => filled.call_at(position),
        }
    }

    /// Adds the calls, each shared.
    pub(crate) fn add_calls(&self, calls: &mut List<Shared>) -> Result<(), Memory>
        ensures { OnOk result (calls.new ≡ calls.old ++ row_in self.now) }
    {
        match &self.stock {
            Stock::Nothing => Ok(()),
            Stock::One(state) => calls.push(Shared {
                state: Arc::try_clone(state)?,
            }),
            Stock::Many(filled) => filled.add_calls(calls),
        }
    }

    // Whether some call Succeeded.
    pub(crate) fn some_succeeded(&self) -> bool
        ensures { result ≡ some_succeeded (row_in self.now) }
    {
        self.sum().succeeded
    }

    // Whether all calls Failed.
    pub(crate) fn all_fell(&self) -> bool
        ensures { result ≡ all_fell (row_in self.now) }
    {
        self.sum().fell
    }

    /// The same over another call at this position. All other calls are shared, and all chunks but that of the call and the last.
    pub(crate) fn with_call(&self, position: usize, call: State) -> Result<Below, Memory>
        ensures { IfOk result (λ below. below ≡ replaced self.now position call) }
    {
        match &self.stock {
            Stock::Nothing => Ok(Below::new(self.alloc)),
            Stock::One(state) => self.with_one(state, position, call),
            Stock::Many(filled) => Below::of(self.alloc, filled.with_call(position, call)?),
        }
    }

    // The same of a call that stands there alone.
    fn with_one(&self, state: &Arc<Summed>, position: usize, call: State) -> Result<Below, Memory>
        ensures { IfOk result (λ below. below ≡ replaced (row_of (state.now.value ∷ [])) position call) }
    {
        let state = match position {
            0 => Shared::new(call)?.into_arc(),
            _ => Arc::try_clone(state)?,
        };
        Ok(Below {
            stock: Stock::One(state),
            alloc: self.alloc,
        })
    }

    #[cycle(first_want)]
    pub(crate) fn first_want(&self, kind: WantKind) -> Option<&Want>
        ensures { option_copied result ≡ find (is_of kind) (wants_in (lines_below self.now)) }
    {
        match &self.stock {
            Stock::Nothing => None,
            Stock::One(state) => state.state.first_want(kind),
            Stock::Many(filled) => filled.first_want(kind),
        }
    }

    #[cycle(first_beginning)]
    pub(crate) fn first_beginning(&self) -> Option<&Path>
        ensures { option_copied result ≡ first (beginnings_in (lines_below self.now)) }
    {
        match &self.stock {
            Stock::Nothing => None,
            Stock::One(state) => state.state.first_beginning(),
            Stock::Many(filled) => filled.first_beginning(),
        }
    }

    #[cycle(tell)]
    pub(crate) fn tell(&self, told: &mut Told) -> Result<(), Memory>
        ensures { OnOk result (told.new ≡ told_with told.old (lines_below self.now)) }
    {
        match &self.stock {
            Stock::Nothing => Ok(()),
            Stock::One(state) => state.state.tell(told),
            Stock::Many(filled) => filled.tell(told),
        }
    }

    #[cycle(find_want)]
    pub(crate) fn find_want<T: WantTest>(&self, kind: WantKind, test: &T) -> Option<&Want>
        ensures { option_copied result ≡ find (passes kind (T.accepts test.now)) (wants_in (lines_below self.now)) }
    {
        match &self.stock {
            Stock::Nothing => None,
            Stock::One(state) => state.state.find_want(kind, test),
            Stock::Many(filled) => filled.find_want(kind, test),
        }
    }

    #[cycle(find_node)]
    pub(crate) fn find_node<T: NodeTest>(&self, test: &T) -> Option<&Node>
        ensures { option_copied result ≡ find (T.accepts test.now) (nodes_in (lines_below self.now)) }
    {
        match &self.stock {
            Stock::Nothing => None,
            Stock::One(state) => state.state.find_node(test),
            Stock::Many(filled) => filled.find_node(test),
        }
    }

    #[cycle(next_timer)]
    pub(crate) fn next_timer(&self, clock: u64) -> Option<u64>
        ensures { result ≡ next_tick clock (wants_in (lines_below self.now)) }
    {
        match &self.stock {
            Stock::Nothing => None,
            Stock::One(state) => state.state.next_timer(clock),
            Stock::Many(filled) => filled.next_timer(clock),
        }
    }

    // The first pod that is found, where the first of all has a position.
    #[cycle(find_pod)]
    pub(crate) fn find_pod_at<T: WantTest>(
        &self,
        at: usize,
        from: usize,
        test: &T,
    ) -> Option<(usize, &Want)>
        requires { at + length (pods_in (wants_in (lines_below self.now))) < 2 ^ 64 }
        ensures { option_map (λ f. (f.0, f.1.now)) result
            ≡ found_at from at (T.accepts test.now) (pods_in (wants_in (lines_below self.now))) }
    {
        match &self.stock {
            Stock::Nothing => None,
            Stock::One(state) => state.state.find_pod_at(at, from, test),
            Stock::Many(filled) => filled.find_pod_at(at, from, test),
        }
    }
}

// The call that stands alone, where it is the one of this position.
fn first_alone(state: &Arc<Summed>, position: usize) -> Option<&State>
    ensures { option_copied result ≡ call_at (row_of (state.now.value ∷ [])) position }
{
    match position {
        0 => Some(&state.state),
        _ => None,
    }
}
