//! What stands in what a call makes, found without a list of it.

ghost use Rattle.std.specs.Prelude.{◌≡◌, IfSome, option_copied};
ghost use Rattle.std.specs.List.{find};
ghost use Rattle.meaning.specs.Lines as lines;
ghost use Rattle.meaning.specs.Trees.{nodes_in, wants_in};
ghost use Rattle.tree_state.specs.Finding.{passes, due_above, sooner, next_tick, IsFound, IsWithin};
ghost use Rattle.tree_state.specs.Inside.Kids.{own_line, line_then, state_then};

use crate::clue::position_at;
use crate::state::{Kid, Line};
use crate::{Clue, NodeTest, State, WantKind, WantTest};
use tree_types::{Node, Want, Wants};

impl State {
    /// The first want of a kind, in tree order, that passes a test. What asks for none of the kind is not looked through.
    #[cycle(find_want)]
    pub fn find_want<T: WantTest>(&self, kind: WantKind, test: &T) -> Option<&Want>
        ensures { option_copied result
            ≡ find (passes kind (T.accepts test.now)) (wants_in (lines.lines_in self.now)) }
    {
        if let Some(want) = found_in(&self.wants, kind, test) {
            return Some(want);
        }
        self.below.find_want(kind, test)
    }

    /// The first node, in tree order, that passes a test.
    #[cycle(find_node)]
    pub fn find_node<T: NodeTest>(&self, test: &T) -> Option<&Node>
        ensures { option_copied result
            ≡ find (T.accepts test.now) (nodes_in (lines.lines_in self.now)) }
    {
        if test.accepts(&self.node) {
            return Some(&self.node);
        }
        self.below.find_node(test)
    }

    /// The least tick above a clock at which a timer is due that is asked for. What asks for no timer is not looked through.
    #[cycle(next_timer)]
    pub fn next_timer(&self, clock: u64) -> Option<u64>
        ensures { result ≡ next_tick clock (wants_in (lines.lines_in self.now)) }
    {
        let own = next_in(&self.wants, clock);
        sooner(own, self.below.next_timer(clock))
    }

    /// A node that a clue leads to, by the way that paths and names show. What is found fits the clue; where none is found,
    /// there may be one all the same.
    pub fn on_way(&self, clue: &Clue<'_>) -> Option<&Node>
        ensures { IfSome result (λ node. IsFound clue.now (lines.lines_in self.now) node.now) }
    {
        let mut state = self;
        for _ in 0..clue.longest_way() {
            if clue.accepts(&state.node) {
                return Some(&state.node);
            }
            match state.next_on_way(clue) {
                None => return None,
                Some(next) => state = next,
            }
        }
        None
    }

    // The call below the node that stands on the way. It is looked for where it is likely to stand, and all around.
    fn next_on_way(&self, clue: &Clue<'_>) -> Option<&State>
        ensures { IfSome result (λ next. IsWithin next.now self.now) }
    {
        let near = clue.position_below(&self.node);
        let count = self.below.calls();
        for step in 0..count {
            let position = position_at(step, near, count);
            if let Some(state) = self.below.call_at(position) {
                if clue.leads_through(&state.node) {
                    return Some(state);
                }
            }
        }
        None
    }
}

// Whether a want is of a kind, and passes a test.
fn passes<T: WantTest>(want: &Want, kind: WantKind, test: &T) -> bool
    ensures { result ≡ passes kind (T.accepts test.now) want.now }
{
    kind.is_of(want) && test.accepts(want)
}

// The first want of a kind that passes a test.
fn found_in<'a, T: WantTest>(wants: &'a Wants, kind: WantKind, test: &T) -> Option<&'a Want>
    ensures { option_copied result ≡ find (passes kind (T.accepts test.now)) wants.now }
{
    for want in wants.as_slice() {
        if passes(want, kind, test) {
            return Some(want);
        }
    }
    None
}

// The tick of a timer that is due above a clock.
fn due_above(want: &Want, clock: u64) -> Option<u64>
    ensures { result ≡ due_above clock want.now }
{
    match want {
        Want::Timer(_, tick) => { if clock < *tick { Some(*tick) } else { None } }
        _ => None,
    }
}

/// The sooner of two ticks, where there are any.
pub fn sooner(one: Option<u64>, other: Option<u64>) -> Option<u64>
    ensures { result ≡ sooner one other }
{
    match (one, other) {
        (None, _) => other,
        (_, None) => one,
        (Some(one), Some(other)) => Some(one.min(other)),
    }
}

// The least tick above a clock at which one of these timers is due.
fn next_in(wants: &Wants, clock: u64) -> Option<u64>
    ensures { result ≡ next_tick clock wants.now }
{
    let mut next = None;
    for want in wants.as_slice() {
        next = sooner(next, due_above(want, clock));
    }
    next
}

impl Line {
    // What the line asks for, if that is of this kind and passes a test.
    fn found<T: WantTest>(&self, kind: WantKind, test: &T) -> Option<&Want>
        ensures { option_copied result ≡ find (passes kind (T.accepts test.now))
            (wants_in (lines.lines_below (own_line self.now lines.nothing))) }
    {
        match self {
            Line::MayBegin(_) => None,
            Line::Asks(want) => {
                if passes(want, kind, test) {
                    Some(want)
                } else {
                    None
                }
            }
        }
    }

    // The tick above a clock at which the timer is due that the line asks for.
    fn due_above(&self, clock: u64) -> Option<u64>
        ensures { result ≡ next_tick clock (wants_in (lines.lines_below (own_line self.now lines.nothing))) }
    {
        match self {
            Line::MayBegin(_) => None,
            Line::Asks(want) => due_above(want, clock),
        }
    }
}

impl Kid {
    // What the kid's own line asks for, if that is of this kind and passes a test.
    fn own_found<T: WantTest>(&self, kind: WantKind, test: &T) -> Option<&Want>
        ensures { option_copied result ≡ find (passes kind (T.accepts test.now))
            (wants_in (lines.lines_below (line_then self.now.line lines.nothing))) }
    {
        match &self.line {
            None => None,
            Some(line) => line.found(kind, test),
        }
    }

    #[cycle(find_want)]
    pub(crate) fn find_want<T: WantTest>(&self, kind: WantKind, test: &T) -> Option<&Want>
        ensures { option_copied result ≡ find (passes kind (T.accepts test.now)) (wants_in
            (lines.lines_below (line_then self.now.line (state_then self.now.state lines.nothing)))) }
    {
        if let Some(want) = self.own_found(kind, test) {
            return Some(want);
        }
        match &self.state {
            None => None,
            Some(state) => state.state.find_want(kind, test),
        }
    }

    #[cycle(find_node)]
    pub(crate) fn find_node<T: NodeTest>(&self, test: &T) -> Option<&Node>
        ensures { option_copied result ≡ find (T.accepts test.now) (nodes_in
            (lines.lines_below (line_then self.now.line (state_then self.now.state lines.nothing)))) }
    {
        match &self.state {
            None => None,
            Some(state) => state.state.find_node(test),
        }
    }

    // The tick above a clock at which a timer is due that the kid's own line asks for.
    fn own_timer(&self, clock: u64) -> Option<u64>
        ensures { result ≡ next_tick clock
            (wants_in (lines.lines_below (line_then self.now.line lines.nothing))) }
    {
        match &self.line {
            None => None,
            Some(line) => line.due_above(clock),
        }
    }

    #[cycle(next_timer)]
    pub(crate) fn next_timer(&self, clock: u64) -> Option<u64>
        ensures { result ≡ next_tick clock (wants_in
            (lines.lines_below (line_then self.now.line (state_then self.now.state lines.nothing)))) }
    {
        let own = self.own_timer(clock);
        match &self.state {
            None => own,
            Some(state) => sooner(own, state.state.next_timer(clock)),
        }
    }
}
