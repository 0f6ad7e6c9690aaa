//! A job under the turn, step by step: draw a ticket, wait until it is served, take the value out, work, commit, pass on.
ghost use Rattle.std.specs.Prelude.{◌≡◌, Some, [], true, false};
ghost use Rattle.std.specs.Borrow.{MutBor};
ghost use Rattle.std.specs.Fn.{FnOnceReturnsAtMut};
ghost use Rattle.store_turn.specs.Lists.{StartsWith};
ghost use Rattle.store_turn.specs.Steps.{at_turn, at_rest};
ghost use Rattle.store_turn.specs.Seats.{GrowsByOne, Took};
ghost use Rattle.store_turn.specs.Inside.Turns.{as_seat, Rests, Holds, Served, TookOut, Out, Did, More, Committed, Same};

use crate::grows::Grows;
use crate::rule::{Commit, Draw, Look, Pass, Read, View};
use crate::table::{TableSeat, TurnTable};
use std::sync::Wait;
use std::thread;

impl<T: Grows> TurnTable<T> {
    // The ticket's number, of which a word has what is left of 2 to the power 64.
    fn draw(&self, seat: &mut TableSeat<T>) -> u64
        requires of { seat.old.table_id ≡ self.now.table.shared.table_id }
        requires rests { Rests seat.old.me }
        ensures of { seat.new.table_id ≡ self.now.table.shared.table_id }
        ensures drew { Holds seat.old.me.0 result seat.new.me }
    {
        self.table.shared.fetch_add::<Draw>(seat, 1, 1)
    }

    // Whether the ticket is served.
    fn look(&self, seat: &mut TableSeat<T>, ticket: u64) -> bool
        requires of { seat.old.table_id ≡ self.now.table.shared.table_id }
        requires holds { (v : View T.Item T.Base) × Holds v ticket seat.old.me × (v.read ≡ false) }
        ensures of { seat.new.table_id ≡ self.now.table.shared.table_id }
        ensures looked { result ≡ true → seat.new.me ≡ (at_turn seat.old.me.0, []) }
        ensures waits { result ≡ false → seat.new.me ≡ seat.old.me }
    {
        self.table.shared.load::<Look>(seat, 2) == ticket
    }

    fn wait<W: Wait>(&self, rt: &W, seat: &mut TableSeat<T>)
        requires of { seat.old.table_id ≡ self.now.table.shared.table_id }
        requires rests { Rests seat.old.me }
        ensures of { seat.new.table_id ≡ self.now.table.shared.table_id }
        ensures served { Served seat.old.me.0 seat.new.me }
    {
        let ticket = self.draw(seat);
        'looks: for _ in rt.forever() {
            if self.look(seat, ticket) {
                break;
            }
            thread::yield_now();
        }
    }

    fn take(&self, seat: &mut TableSeat<T>)
        requires of { seat.old.table_id ≡ self.now.table.shared.table_id }
        requires served { (v : View T.Item T.Base) × Served v seat.old.me × (v.read ≡ false) }
        ensures of { seat.new.table_id ≡ self.now.table.shared.table_id }
        ensures took_out { TookOut T.list T.base seat.old.me seat.new.me }
    {
        self.table.shared.load::<Read<T>>(seat, 0);
    }

    // Does the job on the value that is out, and says whether it added an entry.
    fn work<R, F: FnOnce(&mut T) -> R>(&self, seat: &mut TableSeat<T>, job: F) -> (R, bool)
        requires of { seat.old.table_id ≡ self.now.table.shared.table_id }
        requires out { Out T.list T.base seat.old.me }
        requires may { (lent : MutBor T) → T.list lent.now ≡ seat.old.me.0.seen
            → Some (T.base lent.now) ≡ seat.old.me.0.base → F.pre job lent }
        requires grows { (x : T) (r : R) (y : T) → T.list x ≡ seat.old.me.0.seen
            → Some (T.base x) ≡ seat.old.me.0.base → FnOnceReturnsAtMut F.FnOnce job x r y
            → GrowsByOne T.list T.base x y }
        ensures of { seat.new.table_id ≡ self.now.table.shared.table_id }
        ensures did { Did T.list T.base (FnOnceReturnsAtMut F.FnOnce job)
            seat.old.me result.0 result.1 seat.new.me }
    {
        let value = seat.slot_mut(&self.table.shared, 0);
        let before = value.len();
        let result = job(value);
        let after = value.len();
        (result, before < after)
    }

    // The entry that the job added is the seat's own.
    fn commit(&self, seat: &mut TableSeat<T>)
        requires of { seat.old.table_id ≡ self.now.table.shared.table_id }
        requires more { More T.list T.base seat.old.me }
        ensures of { seat.new.table_id ≡ self.now.table.shared.table_id }
        ensures committed { Committed T.list T.base seat.old.me seat.new.me }
    {
        self.table.shared.fetch_add::<Commit<T>>(seat, 0, 1);
    }

    // Gives the value back and serves the next ticket.
    fn pass(&self, seat: &mut TableSeat<T>)
        requires of { seat.old.table_id ≡ self.now.table.shared.table_id }
        requires same { Same T.list T.base seat.old.me }
        ensures of { seat.new.table_id ≡ self.now.table.shared.table_id }
        ensures passed { seat.new.me ≡ (at_rest seat.old.me.0, []) }
    {
        self.table.shared.fetch_add::<Pass>(seat, 2, 1);
    }

    pub(crate) fn with_turn<W: Wait, R, F: FnOnce(&mut T) -> R>(
        &self,
        rt: &W,
        seat: &mut TableSeat<T>,
        job: F,
    ) -> R
        requires of { seat.old.table_id ≡ self.now.table.shared.table_id }
        requires rests { Rests seat.old.me }
        requires may { (lent : MutBor T) → StartsWith (T.list lent.now) seat.old.me.0.seen
            → Some (T.base lent.now) ≡ seat.old.me.0.base → F.pre job lent }
        requires grows { (x : T) (r : R) (y : T) → StartsWith (T.list x) seat.old.me.0.seen
            → Some (T.base x) ≡ seat.old.me.0.base → FnOnceReturnsAtMut F.FnOnce job x r y
            → GrowsByOne T.list T.base x y }
        ensures of { seat.new.table_id ≡ self.now.table.shared.table_id }
        ensures rests { Rests seat.new.me }
        ensures share { seat.new.me.0.share ≡ seat.old.me.0.share }
        ensures base { seat.new.me.0.base ≡ seat.old.me.0.base }
        ensures took { Took T.list T.base (FnOnceReturnsAtMut F.FnOnce job)
            (as_seat seat.old.table_id seat.old.me.0) result
            (as_seat seat.new.table_id seat.new.me.0) }
    {
        self.wait(rt, seat);
        self.take(seat);
        let (result, more) = self.work(seat, job);
        if more {
            self.commit(seat);
        }
        self.pass(seat);
        result
    }
}
