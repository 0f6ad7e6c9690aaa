//! The rule of the turn, and what each kind of step tells the seat that makes it.
ghost use Rattle.store_turn.specs.Tickets.{InTurn};
ghost use Rattle.store_turn.specs.Steps.{first_view, drew, looked, did_read, committed, passed, recalled, half, other_half, joined, spent};

use crate::grows::Grows;
use atomic_table::{Join, Play, Split, TableRule};
use std::collections::LinkedList;
use std::marker::PhantomData;
use std::snapshot::Snapshot;

/// What a seat knows. It is spoken of in clauses alone, and no value of it is made.
pub struct View<E, B> {
    pub seen: LinkedList<E>,
    pub base: Option<B>,
    pub left: LinkedList<E>,
    pub right: LinkedList<E>,
    pub places: LinkedList<u64>,
    pub share: u64,
    pub ticket: Option<u64>,
    pub served: bool,
    pub read: bool,
}

/// The rule under which the table of a turn stands.
pub struct TurnRule<T> {
    value: PhantomData<T>,
}

impl<T: Grows> TableRule<T, View<T::Item, T::Base>, Snapshot<T>> for TurnRule<T> {
    ghost holds = { λ key. InTurn T.list T.base (T.base key.value) };

    ghost first = { λ key. first_view (T.list key.value) (T.base key.value) };
}

pub(crate) struct Draw;

impl<T, E, B> Play<T, View<E, B>> for Draw {
    ghost then = { drew };
}

pub(crate) struct Look;

impl<T, E, B> Play<T, View<E, B>> for Look {
    ghost then = { looked };
}

pub(crate) struct Read<T> {
    value: PhantomData<T>,
}

impl<T: Grows> Play<T, View<T::Item, T::Base>> for Read<T> {
    ghost then = { did_read T.list T.base };
}

pub(crate) struct Commit<T> {
    value: PhantomData<T>,
}

impl<T: Grows> Play<T, View<T::Item, T::Base>> for Commit<T> {
    ghost then = { committed T.list };
}

pub(crate) struct Pass;

impl<T, E, B> Play<T, View<E, B>> for Pass {
    ghost then = { passed };
}

pub(crate) struct Recall;

impl<T, E, B> Play<T, View<E, B>> for Recall {
    ghost then = { recalled };
}

pub(crate) struct Halves;

impl<E, B> Split<View<E, B>> for Halves {
    ghost left = { half };

    ghost right = { other_half };
}

pub(crate) struct Both;

impl<E, B> Join<View<E, B>> for Both {
    ghost both = { joined };

    ghost spent = { spent };
}
