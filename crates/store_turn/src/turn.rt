//! The turn and its seats, as callers see them.
ghost use Rattle.std.specs.Prelude.{◌≡◌, ◌≤◌, ◌+◌, ◌-◌, Some, [], IfOk, length};
ghost use Rattle.std.specs.Borrow.{MutBor};
ghost use Rattle.std.specs.Fn.{FnOnceReturnsAtMut};
ghost use Rattle.store_turn.specs.Lists.{StartsWith, longer};
ghost use Rattle.store_turn.specs.Places.{merged, PlacesIn};
ghost use Rattle.store_turn.specs.Tickets.{whole_share};
ghost use Rattle.store_turn.specs.Seats.{GrowsByOne, Took};

use crate::grows::Grows;
use crate::table::{TableSeat, TurnTable};
use base_types::Memory;
use std::alloc::Global;
use std::marker::Model;
use std::sync::Wait;

/// A value that threads take in turn, each through a seat of its own.
#[derive(Drop)]
pub struct Turn<T: Grows> {
    table: TurnTable<T>,
}

impl<T: Grows> Model for Turn<T> {
    ghost use Rattle.store_turn.specs.Seats.{AsTurn};

    ghost Value = { AsTurn };

    ghost view = { λ turn. record { name = turn.table.table.shared.table_id } };
}

/// A caller's place at a turn. What it has seen, its places and its share are known to contracts alone.
#[derive(Drop)]
pub struct Seat<T: Grows> {
    seat: TableSeat<T>,
}

impl<T: Grows> Model for Seat<T> {
    ghost use Rattle.store_turn.specs.Seats.{AsSeat};
    ghost use Rattle.store_turn.specs.Inside.Turns.{as_seat, Rests};

    ghost Value = { AsSeat T.Item T.Base };

    ghost view = { λ s. as_seat s.seat.table_id s.seat.me.0 };

    ghost invariant = { λ s. Rests s.seat.me };
}

impl<T: Grows> Turn<T> {
    /// The first seat has the whole share.
    pub fn new(alloc: Global, value: T) -> Result<(Turn<T>, Seat<T>), Memory>
        ensures of { IfOk result (λ made. made.1.turn ≡ made.0.name) }
        ensures seen { IfOk result (λ made. made.1.seen ≡ T.list value) }
        ensures base { IfOk result (λ made. made.1.base ≡ Some (T.base value)) }
        ensures places { IfOk result (λ made. made.1.places ≡ []) }
        ensures whole { IfOk result (λ made. made.1.share ≡ whole_share) }
    {
        let (table, seat) = TurnTable::new(alloc, value)?;
        Ok((Turn { table }, Seat { seat }))
    }

    /// A further seat, for another thread.
    pub fn split(&self, seat: &mut Seat<T>) -> Seat<T>
        requires of { seat.old.turn ≡ self.now.name }
        requires share { 2 ≤ seat.old.share }
        ensures of { (seat.new.turn ≡ self.now.name) × (result.turn ≡ self.now.name) }
        ensures share { (seat.new.share ≡ seat.old.share - 1) × (result.share ≡ 1) }
        ensures seen { (seat.new.seen ≡ seat.old.seen) × (result.seen ≡ seat.old.seen) }
        ensures base { (seat.new.base ≡ seat.old.base) × (result.base ≡ seat.old.base) }
        ensures places { (seat.new.places ≡ seat.old.places) × (result.places ≡ []) }
    {
        let other = self.table.split(&mut seat.seat);
        Seat { seat: other }
    }

    /// Takes the other seat in: its share, what it saw, and its places.
    pub fn join(&self, seat: &mut Seat<T>, other: Seat<T>)
        requires of { (seat.old.turn ≡ self.now.name) × (other.turn ≡ self.now.name) }
        ensures of { seat.new.turn ≡ self.now.name }
        ensures share { seat.new.share ≡ seat.old.share + other.share }
        ensures seen { seat.new.seen ≡ longer seat.old.seen other.seen }
        ensures begins { StartsWith seat.new.seen seat.old.seen
            × StartsWith seat.new.seen other.seen }
        ensures base { seat.new.base ≡ seat.old.base }
        ensures places { seat.new.places ≡ merged seat.old.places other.places }
        ensures placed { PlacesIn (length seat.new.seen) seat.new.places }
    {
        let Seat { seat: theirs } = other;
        self.table.join(&mut seat.seat, theirs);
    }

    /// Waits for the turn, does the job on the value, and passes the turn on.
    pub fn with_turn<W: Wait, R, F: FnOnce(&mut T) -> R>(
        &self,
        rt: &W,
        seat: &mut Seat<T>,
        job: F,
    ) -> R
        requires of { seat.old.turn ≡ self.now.name }
        // the job may be called on each value that the turn can have when it comes
        requires may { (lent : MutBor T) → StartsWith (T.list lent.now) seat.old.seen
            → Some (T.base lent.now) ≡ seat.old.base → F.pre job lent }
        // and leaves it with the same list, or one entry more
        requires grows { (x : T) (r : R) (y : T) → StartsWith (T.list x) seat.old.seen
            → Some (T.base x) ≡ seat.old.base → FnOnceReturnsAtMut F.FnOnce job x r y
            → GrowsByOne T.list T.base x y }
        ensures of { seat.new.turn ≡ self.now.name }
        ensures share { seat.new.share ≡ seat.old.share }
        ensures base { seat.new.base ≡ seat.old.base }
        ensures took { Took T.list T.base (FnOnceReturnsAtMut F.FnOnce job)
            seat.old result seat.new }
        ensures placed { PlacesIn (length seat.new.seen) seat.new.places }
    {
        self.table.with_turn(rt, &mut seat.seat, job)
    }

    /// Gives the value back. Since the seat has the whole share, no other has one, and it has seen all entries.
    pub fn close(self, seat: Seat<T>) -> T
        requires of { seat.turn ≡ self.name }
        requires whole { seat.share ≡ whole_share }
        ensures seen { T.list result ≡ seat.seen }
        ensures base { seat.base ≡ Some (T.base result) }
        ensures placed { PlacesIn (length seat.seen) seat.places }
    {
        let Turn { table } = self;
        let Seat { seat: last } = seat;
        table.close(last)
    }
}
