//! Positions, each once.

ghost use Rattle.std.specs.Prelude.{◌≡◌, ◌<◌, ◌==◌, [], false, replicate, vec_len, IfOk, OnOk};
ghost use Rattle.std.specs.List.{list_any};
ghost use Rattle.dag_board.specs.Inside.Firsts.{add_first};

use base_types::{List, Memory};
use std::alloc::Global;
use std::marker::Model;

/// Positions below a room, each once, by the first place at which it was added.
#[derive(Debug, Drop)]
pub(crate) struct Firsts {
    marks: Vec<bool>,
    list: List<usize>,
}

impl Model for Firsts {
    ghost use Rattle.std.specs.Prelude.{vec_len};
    ghost use Rattle.dag_board.specs.Inside.Firsts.{Listed, AreMarked};

    ghost Value = { Listed };

    ghost view = { λ a. record { room = vec_len a.marks; list = a.list } };

    ghost invariant = { λ a. AreMarked (vec_len a.marks) a.marks.items a.list };
}

impl Firsts {
    pub(crate) fn new(alloc: Global, room: usize) -> Result<Firsts, Memory>
        ensures { IfOk result (λ firsts. firsts ≡ record { room = room; list = [] }) }
    {
        Ok(Firsts {
            marks: no_marks(alloc, room)?,
            list: List::new(alloc),
        })
    }

    pub(crate) fn has(&self, place: usize) -> bool
        requires { place < self.now.room }
        ensures { result ≡ list_any (λ p. place == p) self.now.list }
    {
        self.marks[place]
    }

    pub(crate) fn add(&mut self, place: usize) -> Result<(), Memory>
        requires { place < self.old.room }
        ensures room { OnOk result (self.new.room ≡ self.old.room) }
        ensures list { OnOk result (self.new.list ≡ add_first self.old.list place) }
    {
        if !self.marks[place] {
            self.list.push(place)?;
            self.marks[place] = true;
        }
        Ok(())
    }

    pub(crate) fn into_list(self) -> List<usize>
        ensures { result ≡ self.list }
    {
        self.list
    }
}

fn no_marks(alloc: Global, count: usize) -> Result<Vec<bool>, Memory>
    ensures long { IfOk result (λ marks. vec_len marks ≡ count) }
    ensures none { IfOk result (λ marks. marks.items ≡ replicate count false) }
{
    let mut marks = Vec::with_capacity(alloc, count)?;
    for _ in 0..count {
        marks.push(false)?;
    }
    Ok(marks)
}
