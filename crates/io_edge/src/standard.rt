//! Any reader and any writer of std as a source and a sink: standard input and output above all.

ghost use Rattle.std.specs.Prelude.{◌≡◌, ◌+◌, ◌<◌, ◌≤◌, IfOk, IsOk, OnErr, None, length};
ghost use Rattle.std.specs.Io.{ReadsAtMost, WritesAtMost};
ghost use Rattle.std.specs.Io.KnownBytes.{ReadConsumes, WriteAppends};
ghost use Rattle.io_edge.specs.Cause.{HasCause};
ghost use Rattle.io_edge.specs.Counting.{Counted};

use crate::{Failed, Sink, Source};
use std::io::{Read, Write};
use std::marker::Model;

/// A reader that counts its faults.
#[derive(Drop)]
pub struct StdSource<R: Read + Drop> {
    inner: R,
    faults: u64,
}

impl<R: Read + Drop> Model for StdSource<R> {
    ghost Value = { Counted R };

    ghost view = { λ source. record { inner = source.inner; faults = source.faults } };
}

impl<R: Read + Drop> StdSource<R> {
    /// A source that counted no fault yet.
    pub fn new(inner: R) -> Self
        ensures { result ≡ record { inner = inner; faults = 0 } }
    {
        StdSource { inner, faults: 0 }
    }
}

impl<R: Read + Drop> Source for StdSource<R> {
    ghost left = { λ _. None };

    ghost faults = { λ source. source.faults };

    /// Where a fault can no longer be counted, it is the end.
    fn read(&mut self, into: &mut [u8]) -> Result<usize, Failed>
        ensures bound { ReadsAtMost result into.new }
        ensures bytes { ReadConsumes None None result into.new }
        ensures cause { HasCause self.old.faults self.new.faults result }

        // While faults can be counted, it gives what the reader gives, and each fault is counted.
        ensures told { self.old.faults < u64.MAX →
            ReadConsumes (R.remaining self.old.inner) (R.remaining self.new.inner) result into.new }
        ensures counted { OnErr result (self.new.faults ≡ self.old.faults + 1) }
        ensures last { self.old.faults ≡ u64.MAX → IsOk result }
    {
        match self.inner.read(into) {
            Ok(count) => Ok(count),
            Err(_) if self.faults == u64::MAX => Ok(0),
            Err(_) => {
                self.faults += 1;
                Err(Failed)
            }
        }
    }
}

/// A writer that counts its faults, a take of no byte among them.
#[derive(Drop)]
pub struct StdSink<W: Write + Drop> {
    inner: W,
    faults: u64,
}

impl<W: Write + Drop> Model for StdSink<W> {
    ghost Value = { Counted W };

    ghost view = { λ sink. record { inner = sink.inner; faults = sink.faults } };
}

impl<W: Write + Drop> StdSink<W> {
    /// A sink that counted no fault yet.
    pub fn new(inner: W) -> Self
        ensures { result ≡ record { inner = inner; faults = 0 } }
    {
        StdSink { inner, faults: 0 }
    }
}

impl<W: Write + Drop> Sink for StdSink<W> {
    ghost holds = { λ _. None };

    ghost faults = { λ sink. sink.faults };

    /// Where a fault can no longer be counted, the piece counts as taken.
    fn write(&mut self, from: &[u8]) -> Result<usize, Failed>
        ensures bound { WritesAtMost result from.now }
        ensures takes { 0 < length from.now → IfOk result (λ n. 0 < n) }
        ensures bytes { WriteAppends None None result from.now }
        ensures cause { HasCause self.old.faults self.new.faults result }

        // While faults can be counted, the writer takes what is told, and each fault is counted.
        ensures told { self.old.faults < u64.MAX →
            WriteAppends (W.contents self.old.inner) (W.contents self.new.inner) result from.now }
        ensures counted { OnErr result (self.new.faults ≡ self.old.faults + 1) }
        ensures last { self.old.faults ≡ u64.MAX → IsOk result }
    {
        match self.inner.write(from) {
            Ok(count) if count > 0 || from.is_empty() => Ok(count),
            _ if self.faults == u64::MAX => Ok(from.len()),
            _ => {
                self.faults += 1;
                Err(Failed)
            }
        }
    }
}
