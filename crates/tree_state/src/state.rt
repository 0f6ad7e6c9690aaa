//! What a call makes.

ghost use Rattle.std.specs.Prelude.{◌≡◌, ◌≤◌, ◌^◌, [], ◌∷◌, length, IfOk, OnOk, map, option_copied};
ghost use Rattle.std.specs.List.{find};
ghost use Rattle.meaning.specs.Lines.{row_in};
ghost use Rattle.meaning.specs.Trees.{wants_in, beginnings_in};
ghost use Rattle.tree_state.specs.Asking.{is_of, first};
ghost use Rattle.tree_types.specs.Phases as phases;
ghost use Rattle.meaning.specs.Lines as lines;
ghost use Rattle.meaning.specs.Calls as calls;
ghost use Rattle.meaning.specs.declared.lines.Line.TheVariants as line;
ghost use Rattle.tree_state.specs.Inside.Kids.{own_line};
ghost use Rattle.tree_state.specs.Inside.Sums.{asks_in, sum_of};

use crate::kinds::Asks;
use crate::sum::{Sum, small};
use crate::{Below, Shared, Told, WantKind};
use base_types::{List, Memory, TryCopy};
use std::marker::Model;
use std::sync::Arc;
use tree_types::{Node, Path, Phase, Want, Wants, fulfilled};

// A line that is no call's.
#[derive(Debug, Drop)]
pub(crate) enum Line {
    MayBegin(Path),
    Asks(Want),
}

impl Line {
    // What it asks for.
    fn asks(&self) -> Asks
        ensures { result ≡ asks_in (lines.lines_below (own_line self.now lines.nothing)) }
    {
        match self {
            Line::MayBegin(path) => Asks::beginning(path),
            Line::Asks(want) => Asks::one(want),
        }
    }

    // What is kept of it.
    fn sum(&self) -> Result<Sum, Memory>
        ensures { IfOk result (λ sum. sum ≡ sum_of (own_line self.now lines.nothing)) }
    {
        Ok(Sum {
            pods: small(self.count(WantKind::Pod))?,
            locks: small(self.count(WantKind::Lock))?,
            asks: self.asks(),
            ..Sum::nothing()
        })
    }

    // What it asks for, if that is of this kind.
    fn want(&self, kind: WantKind) -> Option<&Want>
        ensures { option_copied result
            ≡ find (is_of kind) (wants_in (lines.lines_below (own_line self.now lines.nothing))) }
    {
        match self {
            Line::MayBegin(_) => None,
            Line::Asks(want) => { if kind.is_of(want) { Some(want) } else { None } }
        }
    }

    fn beginning(&self) -> Option<&Path>
        ensures { option_copied result
            ≡ first (beginnings_in (lines.lines_below (own_line self.now lines.nothing))) }
    {
        match self {
            Line::MayBegin(path) => Some(path),
            Line::Asks(_) => None,
        }
    }
}

// What stands below a node: a line of its own, or what a call made.
#[cycle(state)]
#[derive(Debug, Drop)]
pub(crate) struct Kid {
    pub(crate) line: Option<Arc<Line>>,
    pub(crate) state: Option<Arc<Summed>>,
}

// What a call made, behind what is kept of it: of the calls beside one that changes, no more is read.
#[cycle(state)]
#[derive(Debug)]
pub(crate) struct Summed {
    sum: Sum,
    pub(crate) state: State,
}

// Written out, so that proofs about code that drops it see one call.
impl Drop for Summed {
    #[cycle(state)]
    fn drop(self) {
        let Summed { sum: _, state: _ } = self;
    }
}

impl Model for Summed {
    ghost use Rattle.std.specs.Prelude.{◌≡◌, [], ◌∷◌};
    ghost use Rattle.meaning.specs.Lines.{Made, row_of};
    ghost use Rattle.tree_state.specs.MadeCode.{made_code};

    ghost Value = { Made };

    ghost coded = { made_code };

    ghost use Rattle.tree_state.specs.Inside.Sums.{sum_of};

    ghost view = { λ a. a.state };

    ghost invariant = { λ a. a.sum ≡ sum_of (row_of (a.state ∷ [])) };

    ghost use Rattle.tree_state.specs.Inside.Sizes.{summed_size};

    ghost size = { summed_size };

    ghost use Rattle.std.proofs.Common.{arith};

    ghost size_decreases = { λ a h. Prim.omega arith };
}

impl Summed {
    /// The state, with what is kept of it.
    pub(crate) fn of(state: State) -> Result<Summed, Memory>
        ensures { IfOk result (λ summed. summed ≡ state) }
    {
        let sum = state.sum()?;
        Ok(Summed { sum, state })
    }

    /// What is kept of it.
    pub(crate) fn sum(&self) -> Sum
        ensures { result ≡ sum_of (lines.row_of (self.now ∷ [])) }
    {
        self.sum
    }
}

/// What a call makes: its node, what the node asks for, what others see of the call, and what stands below it. Contracts see
/// it as the meaning has it, whatever is shared.
#[cycle(state)]
#[derive(Debug)]
pub struct State {
    pub(crate) node: Node,
    pub(crate) wants: Wants,
    finished: bool,
    any_succeeded: bool,
    all_failed: bool,
    pub(crate) below: Below,
}

// Written out, so that proofs about code that drops a state see one call.
impl Drop for State {
    #[cycle(state)]
    fn drop(self) {
        let State {
            node: _,
            wants: _,
            finished: _,
            any_succeeded: _,
            all_failed: _,
            below: _,
        } = self;
    }
}

impl Model for State {
    ghost use Rattle.std.specs.Prelude.{◌≡◌};
    ghost use Rattle.meaning.specs.Lines.{Made};
    ghost use Rattle.tree_state.specs.MadeCode.{made_code};

    ghost Value = { Made };

    ghost coded = { made_code };

    ghost view = { λ a. record {
      own = record {
        node = a.node;
        wants = a.wants;
        finished = a.finished;
        any_succeeded = a.any_succeeded;
        all_failed = a.all_failed;
      };
      parts = a.below;
    } };

    ghost use Rattle.tree_state.specs.Inside.Sizes.{made_size};

    ghost size = { made_size };

    ghost use Rattle.std.proofs.Common.{arith};

    ghost size_decreases = { λ a h. Prim.omega arith };
}

// Which kinds of wants a node asks for.
fn asks_of_node(wants: &Wants) -> Asks
    ensures { result ≡ asks_in (map line.Asks wants.now) }
{
    let mut asks = Asks::nothing();
    for want in wants.as_slice() {
        asks = asks.and(Asks::one(want));
    }
    asks
}

impl State {
    ghost use Rattle.tree_state.specs.Telling.{told_with};
    ghost use Rattle.tree_state.specs.Counting.{count};
    ghost use Rattle.tree_state.specs.Replacing.{call_at, with_call, with_item};
    ghost use Rattle.tree_state.specs.Making.{of_loop, with_want};

    /// A node with what it asks for and what stands below it.
    pub fn new(node: Node, wants: Wants, below: Below) -> State
        ensures { result ≡ lines.made node wants below }
    {
        State {
            finished: fulfilled(node.phase),
            any_succeeded: false,
            all_failed: false,
            node,
            wants,
            below,
        }
    }

    /// The node of a looped call over what its items made: whether some of them Succeeded, and whether all Failed.
    pub fn of_loop(node: Node, any_succeeded: bool, all_failed: bool, below: Below) -> State
        ensures { result ≡ of_loop node any_succeeded all_failed below }
    {
        let alloc = node.name.allocator();
        State {
            finished: fulfilled(node.phase),
            any_succeeded,
            all_failed,
            node,
            wants: Wants::new(alloc),
            below,
        }
    }

    /// Adds an exit hook: the call is finished once the hook is.
    pub fn add_hook(&mut self, hook: State) -> Result<(), Memory>
        ensures { OnOk result (self.new ≡ calls.then_hook self.old hook) }
    {
        let finished = hook.finished;
        self.below.push(hook)?;
        self.finished = finished;
        Ok(())
    }

    /// Asks for this before all else.
    pub fn add_want(&mut self, want: Want) -> Result<(), Memory>
        ensures { OnOk result (self.new ≡ with_want want self.old) }
    {
        let alloc = self.node.name.allocator();
        let mut wants = Wants::new(alloc);
        wants.push(want)?;
        for want in self.wants.as_slice() {
            wants.push(want.copy()?)?;
        }
        self.wants = wants;
        Ok(())
    }

    /// The node of the call.
    pub fn node(&self) -> &Node
        ensures { result.now ≡ self.now.own.node }
    {
        &self.node
    }

    pub fn phase(&self) -> Phase
        ensures { result ≡ self.now.own.node.phase }
    {
        self.node.phase
    }

    /// Whether the node is fulfilled, and its exit hook, where it runs, is finished.
    pub fn is_finished(&self) -> bool
        ensures { result ≡ self.now.own.finished }
    {
        self.finished
    }

    /// Whether some item of a looped call Succeeded.
    pub fn any_succeeded(&self) -> bool
        ensures { result ≡ self.now.own.any_succeeded }
    {
        self.any_succeeded
    }

    /// Whether each item of a looped call Failed.
    pub fn all_failed(&self) -> bool
        ensures { result ≡ self.now.own.all_failed }
    {
        self.all_failed
    }

    /// How many nodes the call has, its own among them.
    pub fn count(&self) -> usize
        ensures all { result ≡ count self.now }
        ensures few { result ≤ 2 ^ 32 }
    {
        self.below.nodes() + 1
    }

    // Which kinds of wants the call asks for.
    pub(crate) fn asks(&self) -> Asks
        ensures { result ≡ asks_in (lines.lines_in self.now) }
    {
        asks_of_node(&self.wants).and(self.below.sum().asks)
    }

    // What is kept of the call, as one that stands below a node. Most nodes ask for nothing.
    pub(crate) fn sum(&self) -> Result<Sum, Memory>
        ensures { IfOk result (λ sum. sum ≡ sum_of (lines.row_of (self.now ∷ []))) }
    {
        let below = self.below.sum();
        if self.wants.is_empty() {
            return Ok(Sum {
                nodes: small(self.count())?,
                pods: below.pods,
                locks: below.locks,
                calls: 1,
                finished: self.finished,
                succeeded: self.phase() == Phase::Succeeded,
                fell: self.phase() == Phase::Failed,
                asks: below.asks,
            });
        }
        Ok(Sum {
            nodes: small(self.count())?,
            pods: small(self.count_pods())?,
            locks: small(self.count_locks())?,
            calls: 1,
            finished: self.finished,
            succeeded: self.phase() == Phase::Succeeded,
            fell: self.phase() == Phase::Failed,
            asks: self.asks(),
        })
    }

    /// The call of this position among the calls below the node.
    pub fn call_at(&self, position: usize) -> Option<&State>
        ensures { option_copied result ≡ call_at self.now.parts position }
    {
        self.below.call_at(position)
    }

    /// What the calls below the node made, each shared with this state.
    pub fn calls(&self) -> Result<List<Shared>, Memory>
        ensures { IfOk result (λ calls. calls ≡ row_in self.now.parts) }
    {
        let mut calls = List::new(self.node.name.allocator());
        self.below.add_calls(&mut calls)?;
        Ok(calls)
    }

    /// Whether all calls below the node are finished.
    pub fn all_finished(&self) -> bool
        ensures { result ≡ lines.all_finished (row_in self.now.parts) }
    {
        self.below.all_finished()
    }

    /// The same node of a looped call over another item at this position.
    pub fn with_item(&self, position: usize, item: State) -> Result<State, Memory>
        ensures { IfOk result (λ state. state ≡ with_item self.now position item) }
    {
        let mut state = self.with_call(position, item)?;
        let any_succeeded = state.below.some_succeeded();
        let all_failed = state.below.all_fell();
        state.any_succeeded = any_succeeded;
        state.all_failed = all_failed;
        Ok(state)
    }

    /// The same node over another call at this position. All other calls are shared with this state.
    pub fn with_call(&self, position: usize, call: State) -> Result<State, Memory>
        ensures { IfOk result (λ state. state ≡ with_call self.now position call) }
    {
        self.over(self.below.with_call(position, call)?)
    }

    // The same node, with something else below it.
    pub(crate) fn over(&self, below: Below) -> Result<State, Memory>
        ensures { IfOk result (λ state. state ≡ record self.now { parts = below }) }
    {
        let node = self.node.copy()?;
        let wants = self.wants.copy()?;
        Ok(State {
            node,
            wants,
            finished: self.finished,
            any_succeeded: self.any_succeeded,
            all_failed: self.all_failed,
            below,
        })
    }

    /// The first want of a kind, in tree order. What has none of the kind is not looked through.
    #[cycle(first_want)]
    pub fn first_want(&self, kind: WantKind) -> Option<&Want>
        ensures { option_copied result ≡ find (is_of kind) (wants_in (lines.lines_in self.now)) }
    {
        if let Some(want) = first_of(&self.wants, kind) {
            return Some(want);
        }
        self.below.first_want(kind)
    }

    /// The first task that may begin, in tree order. What has none is not looked through.
    #[cycle(first_beginning)]
    pub fn first_beginning(&self) -> Option<&Path>
        ensures { option_copied result ≡ first (beginnings_in (lines.lines_in self.now)) }
    {
        self.below.first_beginning()
    }

    /// Tells the lines of the call in tree order.
    #[cycle(tell)]
    pub fn tell(&self, told: &mut Told) -> Result<(), Memory>
        ensures { OnOk result (told.new ≡ told_with told.old (lines.lines_in self.now)) }
    {
        told.add_node(&self.node, &self.wants)?;
        self.below.tell(told)?;
        Ok(())
    }
}

// The first want of a kind.
fn first_of(wants: &Wants, kind: WantKind) -> Option<&Want>
    ensures { option_copied result ≡ find (is_of kind) wants.now }
{
    for want in wants.as_slice() {
        if kind.is_of(want) {
            return Some(want);
        }
    }
    None
}

impl Kid {
    ghost use Rattle.meaning.specs.Lines.{Parts, lines_below, nothing};
    ghost use Rattle.tree_state.specs.Inside.Kids.{line_then, state_then, kid_parts, kid_before, replaced_by};

    /// What a call made.
    pub(crate) fn of(state: State) -> Result<Kid, Memory>
        ensures { IfOk result (λ kid. kid_parts kid ≡ lines.row_of (state ∷ [])) }
    {
        Ok(Kid::of_shared(Shared::new(state)?))
    }

    /// What a call made, which is shared.
    pub(crate) fn of_shared(shared: Shared) -> Kid
        ensures { kid_parts result ≡ lines.row_of (shared ∷ []) }
    {
        Kid {
            line: None,
            state: Some(shared.into_arc()),
        }
    }

    // What is kept of the kid's own line.
    fn own_sum(&self) -> Result<Sum, Memory>
        ensures { IfOk result (λ sum. sum ≡ sum_of (line_then self.now.line nothing)) }
    {
        match &self.line {
            None => Ok(Sum::nothing()),
            Some(line) => line.sum(),
        }
    }

    // What is kept of the kid's call.
    fn call_sum(&self) -> Sum
        ensures { result ≡ sum_of (state_then self.now.state nothing) }
    {
        match &self.state {
            None => Sum::nothing(),
            Some(state) => state.sum(),
        }
    }

    /// What is kept of it. Most kids have no line of their own.
    pub(crate) fn sum(&self) -> Result<Sum, Memory>
        ensures { IfOk result (λ sum. sum ≡ sum_of (kid_parts self.now)) }
    {
        match &self.line {
            None => Ok(self.call_sum()),
            Some(_) => {
                let own = self.own_sum()?;
                let call = self.call_sum();
                let both = own.and(call)?;
                Ok(both)
            }
        }
    }

    fn own_line(&self) -> Result<Option<Arc<Line>>, Memory>
        ensures { IfOk result (λ line. (more : Parts) → line_then line more ≡ line_then self.now.line more) }
    {
        match &self.line {
            None => Ok(None),
            Some(line) => Ok(Some(Arc::try_clone(line)?)),
        }
    }

    fn own_state(&self) -> Result<Option<Arc<Summed>>, Memory>
        ensures { IfOk result (λ state. (more : Parts) → state_then state more ≡ state_then self.now.state more) }
    {
        match &self.state {
            None => Ok(None),
            Some(state) => Ok(Some(Arc::try_clone(state)?)),
        }
    }

    // The same kid, which shares its line and its call with this one.
    pub(crate) fn shared(&self) -> Result<Kid, Memory>
        ensures { IfOk result (λ kid. (more : Parts) → kid_before kid more ≡ kid_before self.now more) }
    {
        Ok(Kid {
            line: self.own_line()?,
            state: self.own_state()?,
        })
    }

    // What its call made, without a line before it.
    pub(crate) fn without_line(&self) -> Result<Kid, Memory>
        ensures { IfOk result (λ kid. (more : Parts) → kid_before kid more ≡ state_then self.now.state more) }
    {
        Ok(Kid {
            line: None,
            state: self.own_state()?,
        })
    }

    // The kid, or the call in its place where it is the one to be replaced: the one behind so many calls that are left.
    pub(crate) fn or_replaced(
        &self,
        left: &mut usize,
        call: &mut Option<State>,
    ) -> Result<Kid, Memory>
        ensures { IfOk result (λ kid. (rest : Parts) →
            kid_before kid (replaced_by rest left.new call.new)
            ≡ replaced_by (kid_before self.now rest) left.old call.old) }
    {
        let line = self.own_line()?;
        if self.state.is_none() {
            return Ok(Kid { line, state: None });
        }
        if *left > 0 {
            *left -= 1;
        } else if let Some(call) = call.take() {
            let state = Some(Shared::new(call)?.into_arc());
            return Ok(Kid { line, state });
        }
        let state = self.own_state()?;
        Ok(Kid { line, state })
    }

    // A want of the kid's own line, if it is of this kind.
    fn own_want(&self, kind: WantKind) -> Option<&Want>
        ensures { option_copied result
            ≡ find (is_of kind) (wants_in (lines_below (line_then self.now.line nothing))) }
    {
        match &self.line {
            None => None,
            Some(line) => line.want(kind),
        }
    }

    #[cycle(first_want)]
    pub(crate) fn first_want(&self, kind: WantKind) -> Option<&Want>
        ensures { option_copied result ≡ find (is_of kind) (wants_in
            (lines_below (line_then self.now.line (state_then self.now.state nothing)))) }
    {
        if let Some(want) = self.own_want(kind) {
            return Some(want);
        }
        match &self.state {
            None => None,
            Some(state) => state.state.first_want(kind),
        }
    }

    // The task of the kid's own line.
    fn own_beginning(&self) -> Option<&Path>
        ensures { option_copied result
            ≡ first (beginnings_in (lines_below (line_then self.now.line nothing))) }
    {
        match &self.line {
            None => None,
            Some(line) => line.beginning(),
        }
    }

    #[cycle(first_beginning)]
    pub(crate) fn first_beginning(&self) -> Option<&Path>
        ensures { option_copied result ≡ first (beginnings_in
            (lines_below (line_then self.now.line (state_then self.now.state nothing)))) }
    {
        if let Some(path) = self.own_beginning() {
            return Some(path);
        }
        match &self.state {
            None => None,
            Some(state) => state.state.first_beginning(),
        }
    }

    ghost use Rattle.tree_state.specs.Telling.{told_with};

    #[cycle(tell)]
    pub(crate) fn tell(&self, told: &mut Told) -> Result<(), Memory>
        ensures { OnOk result (told.new ≡ told_with told.old
            (lines_below (line_then self.now.line (state_then self.now.state nothing)))) }
    {
        told.add_line(&self.line)?;
        match &self.state {
            None => Ok(()),
            Some(state) => state.state.tell(told),
        }
    }
}
