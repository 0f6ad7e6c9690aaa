//! The client of a store that other workers use too, under a turn.

ghost use Rattle.std.specs.Prelude.{◌≡◌, ◌≢◌, ◌≤◌, ◌-◌, length, Some, Err};
ghost use Rattle.io_edge.specs.Cause.{Rose};
ghost use Rattle.object_store.specs.declared.refused.StoreRefused.TheVariants.{Fault};
ghost use Rattle.store_client.specs.Under.{seen_of, start_in, LawIs, AtTurn};

use crate::held::Held;
use crate::{Client, in_turn};
use io_edge::{Gate, Outage};
use object_store::{Content, Snapshot, StoreRefused};
use std::sync::Wait;
use store_turn::{Seat, Turn};
use tree_types::{Entry, Key};

/// Each call waits for the turn. The gate is told of it before the turn is asked for and after it was passed on.
#[derive(Drop)]
pub struct TurnClient<'a, T: Content, O: Outage, G: Gate, R: Wait> {
    pub turn: &'a Turn<Held<T, O>>,
    pub seat: &'a mut Seat<Held<T, O>>,
    pub law: &'a T::Law,
    rt: &'a R,
    gate: &'a G,
    pub worker: u32,
    calls: u64,
    faults: u64,
    own: u64,
    ghost of: { seat.now.turn ≡ turn.now.name },
    ghost lawful: { seat.now.base ≡ Some (start_in seat.now.base, law.now) },
    ghost kept: { own ≤ length seat.now.seen },
}

// One more, where the call was answered Fault.
fn faults_after<T>(faults: u64, answer: &Result<T, StoreRefused>) -> u64
    ensures rises { faults ≤ result }
    ensures still { answer.now ≢ Err Fault → result ≡ faults }
    ensures cause { answer.now ≡ Err Fault → Rose faults result }
{
    match answer {
        Ok(_) => faults,
        Err(StoreRefused::Fault) => faults.saturating_add(1),
        Err(_) => faults,
    }
}

impl<'a, T: Content, O: Outage, G: Gate, R: Wait> TurnClient<'a, T, O, G, R> {
    pub fn new(
        rt: &'a R,
        turn: &'a Turn<Held<T, O>>,
        seat: &'a mut Seat<Held<T, O>>,
        gate: &'a G,
        worker: u32,
        law: &'a T::Law,
    ) -> Self
        requires of { seat.old.turn ≡ turn.now.name }
        requires law { LawIs seat.old law.now }
        ensures seat { result.seat.now ≡ seat.old }
        ensures borrow { result.seat.ghost_name ≡ seat.entry.ghost_name }
        ensures turn { result.turn.now ≡ turn.now }
        ensures law { result.law.now ≡ law.now }
        ensures worker { result.worker ≡ worker }
    {
        TurnClient {
            turn,
            seat,
            law,
            rt,
            gate,
            worker,
            calls: 0,
            faults: 0,
            own: 0,
        }
    }
}

impl<'a, T: Content, O: Outage, G: Gate, R: Wait> Client<T> for TurnClient<'a, T, O, G, R> {
    ghost seen = { λ client. seen_of client.seat.now };

    ghost law = { λ client. client.law.now };

    ghost lag = { λ _. 0 };

    ghost faults = { λ client. client.faults };

    // The calls of others, which fail too, are not seen.
    ghost in_row = { λ _. 0 };

    ghost rose = { λ old new. Rose old.faults new.faults };

    ghost others = { λ client. length client.seat.now.seen - client.own };

    ghost Place = { AtTurn };

    ghost place = { λ client. record {
      borrow = client.seat.ghost_name;
      turn = client.seat.now.turn;
      share = client.seat.now.share;
    } };

    fn get(&mut self, key: &Key) -> Result<Snapshot<T>, StoreRefused> {
        self.calls = self.calls.saturating_add(1);
        self.gate.began(self.worker, self.calls);
        let answer = in_turn::get(self.rt, self.turn, self.seat, self.law, key);
        self.gate.answered(self.worker, self.calls);
        self.faults = faults_after(self.faults, &answer);
        answer
    }

    fn create(&mut self, key: Key, content: T, change: Entry) -> Result<Snapshot<T>, StoreRefused> {
        self.calls = self.calls.saturating_add(1);
        self.gate.began(self.worker, self.calls);
        let answer = in_turn::create(
            self.rt, self.turn, self.seat, self.law, key, content, change,
        );
        self.gate.answered(self.worker, self.calls);
        self.faults = faults_after(self.faults, &answer);
        if answer.is_ok() {
            self.own += 1;
        }
        answer
    }

    fn write(
        &mut self,
        from: &Snapshot<T>,
        next: T,
        change: Entry,
    ) -> Result<Snapshot<T>, StoreRefused> {
        self.calls = self.calls.saturating_add(1);
        self.gate.began(self.worker, self.calls);
        let answer = in_turn::write(self.rt, self.turn, self.seat, self.law, from, next, change);
        self.gate.answered(self.worker, self.calls);
        self.faults = faults_after(self.faults, &answer);
        if answer.is_ok() {
            self.own += 1;
        }
        answer
    }

    fn tick(&mut self, to: u64) -> Result<(), StoreRefused> {
        self.calls = self.calls.saturating_add(1);
        self.gate.began(self.worker, self.calls);
        let answer = in_turn::tick(self.rt, self.turn, self.seat, self.law, to);
        self.gate.answered(self.worker, self.calls);
        self.faults = faults_after(self.faults, &answer);
        if answer.is_ok() {
            self.own += 1;
        }
        answer
    }
}
