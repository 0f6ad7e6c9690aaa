//! How many wants of a kind stand among some, and how many locks a call asks for.

ghost use Rattle.std.specs.Prelude.{◌≡◌, ◌+◌, ◌<◌, ◌≤◌, ◌^◌, [], ◌∷◌, length};
ghost use Rattle.std.specs.List.{filter};
ghost use Rattle.meaning.specs.Lines.{lines_in, lines_below, nothing};
ghost use Rattle.meaning.specs.Trees.{wants_in};
ghost use Rattle.tree_state.specs.Asking.{is_of};
ghost use Rattle.tree_state.specs.Finding.{locks_in};
ghost use Rattle.tree_state.specs.Inside.Kids.{own_line, line_then};

use crate::state::{Kid, Line};
use crate::{State, WantKind};
use tree_types::{Want, Wants};

// 1 for a want of this kind, 0 for another.
pub(crate) fn one_of(kind: WantKind, want: &Want) -> usize
    ensures all { result ≡ length (filter (is_of kind) (want.now ∷ [])) }
    ensures few { result ≤ 1 }
{
    if kind.is_of(want) { 1 } else { 0 }
}

// How many of these are of this kind.
pub(crate) fn count_of(kind: WantKind, wants: &Wants) -> usize
    ensures all { result ≡ length (filter (is_of kind) wants.now) }
    ensures few { result < 2 ^ 63 }
{
    let mut count = 0;
    for want in wants.as_slice() {
        count += one_of(kind, want);
    }
    count
}

impl Line {
    pub(crate) fn count(&self, kind: WantKind) -> usize
        ensures all { result ≡ length (filter (is_of kind) (wants_in (lines_below (own_line self.now nothing)))) }
        ensures few { result ≤ 1 }
    {
        match self {
            Line::MayBegin(_) => 0,
            Line::Asks(want) => one_of(kind, want),
        }
    }
}

impl Kid {
    // How many wants of this kind the kid's own line asks for.
    pub(crate) fn own_count(&self, kind: WantKind) -> usize
        ensures all { result ≡ length (filter (is_of kind) (wants_in (lines_below (line_then self.now.line nothing)))) }
        ensures few { result ≤ 1 }
    {
        match &self.line {
            None => 0,
            Some(line) => line.count(kind),
        }
    }
}

impl State {
    /// How many locks the call asks for. Nothing below the node is looked through.
    pub fn locks(&self) -> usize
        ensures { result ≡ length (locks_in (wants_in (lines_in self.now))) }
    {
        self.count_locks()
    }

    // The same, and that there are not too many for a further one to be counted.
    pub(crate) fn count_locks(&self) -> usize
        ensures all { result ≡ length (locks_in (wants_in (lines_in self.now))) }
        ensures few { result < 2 ^ 63 + 2 ^ 32 }
    {
        count_of(WantKind::Lock, &self.wants) + self.below.locks()
    }
}
