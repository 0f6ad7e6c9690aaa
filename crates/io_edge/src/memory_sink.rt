//! A sink in memory, whose writes can be made to fail.

ghost use Rattle.std.specs.Prelude.{◌≡◌, ◌<◌, ◌≤◌, [], IfOk, Some, length, vec_capacity};
ghost use Rattle.std.specs.Io.{WritesAtMost};
ghost use Rattle.std.specs.Io.KnownBytes.{WriteAppends};
ghost use Rattle.io_edge.specs.Cause.{HasCause};
ghost use Rattle.io_edge.specs.Stores.{Store, write_answer, after_write};

use crate::call_plan::CallPlan;
use crate::{CallNumbers, Failed, Sink};
use base_types::Memory;
use std::alloc::Global;
use std::marker::Model;

/// Takes bytes up to its room, at most `piece` a write. A write fails where the plan has its number, and where it has a
/// byte to write and the room is full.
#[derive(Drop)]
pub struct MemSink {
    bytes: Vec<u8>,
    room: usize,
    piece: usize,
    plan: CallPlan,
}

impl Model for MemSink {
    ghost Value = { Store };

    ghost view = { λ sink. record { bytes = sink.bytes.items; room = sink.room; piece = sink.piece; plan = sink.plan } };

    ghost invariant = { λ sink.
        (length sink.bytes.items ≤ sink.room) × (sink.room ≤ vec_capacity sink.bytes) × (0 < sink.piece) };
}

impl MemSink {
    /// An empty sink of which no call was made. It takes its room here, so that no write asks for memory. `failing` has
    /// the numbers of the writes that will fail.
    pub fn new(
        alloc: Global,
        room: usize,
        piece: usize,
        failing: CallNumbers,
    ) -> Result<Self, Memory>
        requires { 0 < piece }
        ensures { IfOk result (λ sink. sink ≡ record {
          bytes = [];
          room = room;
          piece = piece;
          plan = record { failing = failing; calls = 0; faults = 0 };
        }) }
    {
        Ok(MemSink {
            bytes: Vec::with_capacity(alloc, room)?,
            room,
            piece,
            plan: CallPlan::new(failing),
        })
    }

    /// The bytes that writes have left here.
    pub fn bytes(&self) -> &[u8]
        ensures { result.now ≡ self.now.bytes }
    {
        self.bytes.as_slice()
    }
}

impl Sink for MemSink {
    ghost holds = { λ sink. Some sink.bytes };

    ghost faults = { λ sink. sink.plan.faults };

    fn write(&mut self, from: &[u8]) -> Result<usize, Failed>
        ensures bound { WritesAtMost result from.now }
        ensures takes { 0 < length from.now → IfOk result (λ n. 0 < n) }
        ensures bytes { WriteAppends (Some self.old.bytes) (Some self.new.bytes) result from.now }
        ensures cause { HasCause self.old.plan.faults self.new.plan.faults result }

        // The answer and the bytes that were taken are those of the plan, the room and the piece.
        ensures answer { result ≡ write_answer self.old from.now }
        ensures sink { self.new ≡ after_write self.old from.now }
    {
        let free = self.room - self.bytes.len();
        let count = free.min(from.len()).min(self.piece);
        let fails = self.plan.fails_next() || (count == 0 && !from.is_empty());
        self.plan.count(fails);
        if fails {
            return Err(Failed);
        }
        match self.bytes.extend_from_slice(&from[..count]) {
            Ok(()) => Ok(count),
            Err(_) => unreachable!(),
        }
    }
}
