//! A source in memory, whose reads can be made to fail.

ghost use Rattle.std.specs.Prelude.{◌≡◌, ◌<◌, ◌≤◌, drop, Some, length};
ghost use Rattle.std.specs.Io.{ReadsAtMost};
ghost use Rattle.std.specs.Io.KnownBytes.{ReadConsumes};
ghost use Rattle.io_edge.specs.Cause.{HasCause};
ghost use Rattle.io_edge.specs.Supplies.{Supply, read_answer, after_read, bytes_after_read};

use crate::call_plan::CallPlan;
use crate::{CallNumbers, Failed, Source};
use base_types::Bytes;
use std::marker::Model;

/// Gives its bytes, at most `piece` a read. A read fails where the plan has its number.
#[derive(Drop)]
pub struct MemSource {
    bytes: Bytes,
    at: usize,
    piece: usize,
    plan: CallPlan,
}

impl Model for MemSource {
    ghost Value = { Supply };

    ghost view = { λ source. record { left = drop source.at source.bytes; piece = source.piece; plan = source.plan } };

    ghost invariant = { λ source. (source.at ≤ length source.bytes) × (0 < source.piece) };
}

impl MemSource {
    /// A source of which no call was made. `failing` has the numbers of the reads that will fail.
    pub fn new(bytes: Bytes, piece: usize, failing: CallNumbers) -> Self
        requires { 0 < piece }
        ensures { result ≡ record {
          left = bytes;
          piece = piece;
          plan = record { failing = failing; calls = 0; faults = 0 };
        } }
    {
        MemSource {
            bytes,
            at: 0,
            piece,
            plan: CallPlan::new(failing),
        }
    }
}

impl Source for MemSource {
    ghost left = { λ source. Some source.left };

    ghost faults = { λ source. source.plan.faults };

    fn read(&mut self, into: &mut [u8]) -> Result<usize, Failed>
        ensures bound { ReadsAtMost result into.new }
        ensures bytes { ReadConsumes (Some self.old.left) (Some self.new.left) result into.new }
        ensures cause { HasCause self.old.plan.faults self.new.plan.faults result }

        // The answer, what is left and the bytes that were given are those of the plan and the piece.
        ensures answer { result ≡ read_answer self.old (length into.old) }
        ensures source { self.new ≡ after_read self.old (length into.old) }
        ensures given { into.new ≡ bytes_after_read self.old into.old }
    {
        let fails = self.plan.fails_next();
        self.plan.count(fails);
        if fails {
            return Err(Failed);
        }
        let rest = &self.bytes.as_slice()[self.at..];
        let count = rest.len().min(into.len()).min(self.piece);
        into[..count].copy_from_slice(&rest[..count]);
        self.at += count;
        Ok(count)
    }
}
