//! What is asked for of a kind, listed.

ghost use Rattle.std.specs.Prelude.{◌≡◌, [], ◌∷◌, ◌++◌, OnOk};
ghost use Rattle.std.specs.List.{filter};
ghost use Rattle.meaning.specs.Lines as lines;
ghost use Rattle.meaning.specs.Trees.{wants_in};
ghost use Rattle.tree_state.specs.Asking.{is_of};
ghost use Rattle.tree_state.specs.Inside.Kids.{own_line, line_then, state_then};

use crate::below::Stock;
use crate::chunk::Chunk;
use crate::filled::Filled;
use crate::state::{Kid, Line};
use crate::{Below, State, WantKind};
use base_types::{Memory, TryCopy};
use tree_types::{Want, Wants};

impl State {
    /// Adds all that is asked for of a kind, in tree order. What asks for none of the kind is not looked through.
    #[cycle(add_wants)]
    pub fn add_wants(&self, kind: WantKind, wants: &mut Wants) -> Result<(), Memory>
        ensures { OnOk result
            (wants.new ≡ wants.old ++ filter (is_of kind) (wants_in (lines.lines_in self.now))) }
    {
        add_those(&self.wants, kind, wants)?;
        self.below.add_wants(kind, wants)?;
        Ok(())
    }
}

// Adds those of a kind.
fn add_those(asked: &Wants, kind: WantKind, wants: &mut Wants) -> Result<(), Memory>
    ensures { OnOk result (wants.new ≡ wants.old ++ filter (is_of kind) asked.now) }
{
    for want in asked.as_slice() {
        add_one(want, kind, wants)?;
    }
    Ok(())
}

// Adds the want, if it is of this kind.
fn add_one(want: &Want, kind: WantKind, wants: &mut Wants) -> Result<(), Memory>
    ensures { OnOk result (wants.new ≡ wants.old ++ filter (is_of kind) (want.now ∷ [])) }
{
    if kind.is_of(want) {
        wants.push(want.copy()?)
    } else {
        Ok(())
    }
}

impl Line {
    // Adds what the line asks for, if that is of this kind.
    fn add_own(&self, kind: WantKind, wants: &mut Wants) -> Result<(), Memory>
        ensures { OnOk result (wants.new ≡ wants.old ++ filter (is_of kind)
            (wants_in (lines.lines_below (own_line self.now lines.nothing)))) }
    {
        match self {
            Line::MayBegin(_) => Ok(()),
            Line::Asks(want) => add_one(want, kind, wants),
        }
    }
}

impl Kid {
    // Adds what the kid's own line asks for, if that is of this kind.
    fn add_own(&self, kind: WantKind, wants: &mut Wants) -> Result<(), Memory>
        ensures { OnOk result (wants.new ≡ wants.old ++ filter (is_of kind)
            (wants_in (lines.lines_below (line_then self.now.line lines.nothing)))) }
    {
        match &self.line {
            None => Ok(()),
            Some(line) => line.add_own(kind, wants),
        }
    }

    #[cycle(add_wants)]
    fn add_wants(&self, kind: WantKind, wants: &mut Wants) -> Result<(), Memory>
        ensures { OnOk result (wants.new ≡ wants.old ++ filter (is_of kind) (wants_in
            (lines.lines_below (line_then self.now.line (state_then self.now.state lines.nothing))))) }
    {
        self.add_own(kind, wants)?;
        match &self.state {
            None => Ok(()),
            Some(state) => state.state.add_wants(kind, wants),
        }
    }
}

impl Chunk {
    #[cycle(add_wants)]
    fn add_wants(&self, kind: WantKind, wants: &mut Wants) -> Result<(), Memory>
        ensures { OnOk result
            (wants.new ≡ wants.old ++ filter (is_of kind) (wants_in (lines.lines_below self.now))) }
    {
        if !self.sum.asks.of(kind) {
            return Ok(());
        }
        for kid in &self.kids {
            kid.add_wants(kind, wants)?;
        }
        Ok(())
    }
}

impl Filled {
    #[cycle(add_wants)]
    fn add_wants(&self, kind: WantKind, wants: &mut Wants) -> Result<(), Memory>
        ensures { OnOk result
            (wants.new ≡ wants.old ++ filter (is_of kind) (wants_in (lines.lines_below self.now))) }
    {
        if !self.sum.asks.of(kind) {
            return Ok(());
        }
        for chunk in &self.full {
            chunk.add_wants(kind, wants)?;
        }
        self.last.add_wants(kind, wants)
    }
}

impl Below {
    #[cycle(add_wants)]
    fn add_wants(&self, kind: WantKind, wants: &mut Wants) -> Result<(), Memory>
        ensures { OnOk result
            (wants.new ≡ wants.old ++ filter (is_of kind) (wants_in (lines.lines_below self.now))) }
    {
        match &self.stock {
            Stock::Nothing => Ok(()),
            Stock::One(state) => state.state.add_wants(kind, wants),
            Stock::Many(filled) => filled.add_wants(kind, wants),
        }
    }
}
