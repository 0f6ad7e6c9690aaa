//! A case, and its run.

use crate::outcome::Outcome;
use base_types::{Bytes, Memory, Names, Text};
use io_edge::{CallNumbers, MemSink, MemSource, PlannedOutage};
use std::alloc::Global;
use wf_program::{Ended, argo};

/// A run over memory, and how it has to end.
#[derive(Drop)]
pub(crate) struct Case {
    pub(crate) name: Text,
    pub(crate) words: Names,
    pub(crate) input: Bytes,
    pub(crate) edges: Edges,
    pub(crate) expected: Outcome,
}

/// What the source, the sink and the store do besides giving and taking: the read that fails, the write that fails, how many
/// bytes the sink takes in all, and the calls of the store that fail.
#[derive(Drop)]
pub(crate) struct Edges {
    pub(crate) read_fault: CallNumbers,
    pub(crate) write_fault: CallNumbers,
    pub(crate) write_room: usize,
    pub(crate) outage: CallNumbers,
}

// How many bytes a write takes at most.
const WRITE_PIECE: usize = 10;

impl Case {
    /// Runs the case, whose source gives a small part of the input at a read.
    pub(crate) fn run(&self, alloc: Global) -> Result<Outcome, Memory> {
        let edges = &self.edges;
        let input = Bytes::from_slice(alloc, self.input.as_slice())?;
        let piece = 4 + input.len() / 4096;
        let read_fault = CallNumbers::from_slice(alloc, edges.read_fault.as_slice())?;
        let write_fault = CallNumbers::from_slice(alloc, edges.write_fault.as_slice())?;
        let mut source = MemSource::new(input, piece, read_fault);
        let mut sink = MemSink::new(alloc, edges.write_room, WRITE_PIECE, write_fault)?;
        let failing = CallNumbers::from_slice(alloc, edges.outage.as_slice())?;
        let status = argo(
            alloc,
            self.words.as_slice(),
            &mut source,
            &mut sink,
            PlannedOutage::new(failing),
            &mut Ended::new(),
        );
        Ok(Outcome {
            status: u64::from(status.code()),
            output: Bytes::from_slice(alloc, sink.bytes())?,
        })
    }
}
