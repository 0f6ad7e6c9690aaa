//! One entry more among those of a DAG's tasks.

ghost use Rattle.std.specs.Prelude.{[], ◌∷◌, ◌≡◌, ◌≤◌, Bool, false, take, length, IfOk, OnOk, IfSome, IsTrue, true};
ghost use Rattle.meaning.specs.Lines.{Parts, nothing, row_of, then_parts};
ghost use Rattle.tree_state.specs.Inserting as spec;
ghost use Rattle.tree_state.specs.Inserting.{IsPut, HasPut, entry_then};
ghost use Rattle.tree_state.specs.Inside.Kids.{own_line, kid_before, kid_parts, parts_of};
ghost use Rattle.tree_state.specs.Inside.Chunks.{all_of};
ghost use Rattle.tree_state.specs.Inside.Among.{IsAmong, TellsBehind};

use crate::below::Stock;
use crate::chunk::{Chunk, ROOM};
use crate::filled::Filled;
use crate::state::{Kid, Line, Summed};
use crate::{Below, Shared, State};
use base_types::{Memory, TryCopy};
use std::alloc::Global;
use std::sync::Arc;
use tree_types::{Path, Sel};

/// What stands for a task of a DAG: that it may begin, or what it made.
#[derive(Debug, Drop)]
pub enum Entry {
    MayBegin(Path),
    Begun(Shared),
}

/// A task of a DAG by the length of the DAG's path and its number.
#[derive(Clone, Copy, Debug)]
pub struct TaskPlace {
    pub depth: usize,
    pub task: u32,
}

impl TaskPlace {
    // Whether a path is of a later task.
    fn is_before(self, sels: &[Sel]) -> bool
        ensures { result ≡ spec.is_later self sels.now }
    {
        match sels.get(self.depth) {
            Some(Sel::Task(n)) => self.task < *n,
            _ => false,
        }
    }
}

impl Line {
    fn is_later(&self, at: TaskPlace) -> bool
        ensures { (b : Bool) → result ≡ spec.ends_later at b (own_line self.now nothing) }
    {
        match self {
            Line::MayBegin(path) => at.is_before(path.sels.as_slice()),
            Line::Asks(_) => false,
        }
    }
}

impl Kid {
    // Whether its last entry is of a later task, if it has any.
    fn ends_later(&self, at: TaskPlace) -> bool
        ensures { result ≡ false → (b : Bool) → spec.ends_later at b (kid_parts self.now) ≡ false }
    {
        match (&self.state, &self.line) {
            (Some(state), _) => at.is_before(state.state.node.path.sels.as_slice()),
            (None, Some(line)) => line.is_later(at),
            (None, None) => true,
        }
    }

    // Whether it has a first entry, and that is of a later task.
    fn begins_later(&self, at: TaskPlace) -> bool
        ensures { IsTrue result → (rest : Parts) → spec.begins_later at (kid_before self.now rest) ≡ true }
    {
        match (&self.line, &self.state) {
            (Some(line), _) => line.is_later(at),
            (None, Some(state)) => at.is_before(state.state.node.path.sels.as_slice()),
            (None, None) => false,
        }
    }
}

impl Entry {
    fn into_kid(self, alloc: Global) -> Result<Kid, Memory>
        ensures { IfOk result (λ kid. kid_parts kid ≡ entry_then self nothing) }
    {
        match self {
            Entry::MayBegin(path) => Ok(Kid {
                line: Some(Arc::new(alloc, Line::MayBegin(path))?),
                state: None,
            }),
            Entry::Begun(state) => Ok(Kid::of_shared(state)),
        }
    }
}

// In front of which kid an entry belongs: those in front of it do not end with one of a later task.
fn position(kids: &[Kid], at: TaskPlace) -> usize
    ensures low { result ≤ length kids.now }
    ensures ends { spec.ends_later at false (parts_of (take result kids.now)) ≡ false }
{
    for i in 0..kids.len() {
        if kids[i].ends_later(at) {
            return i;
        }
    }
    kids.len()
}

// Whether the kids end with an entry of a later task.
fn end_later(kids: &[Kid], at: TaskPlace) -> bool
    ensures { result ≡ false → spec.ends_later at false (parts_of kids.now) ≡ false }
{
    if kids.is_empty() {
        return false;
    }
    kids[kids.len() - 1].ends_later(at)
}

// What stands behind a kid that was put among others.
enum Behind {
    // An entry of a later task.
    Later,
    Nothing,
    Unknown,
}

fn what_follows(kids: &[Kid], place: usize, at: TaskPlace) -> Behind
    ensures { TellsBehind at kids.now place result }
{
    match kids.get(place) {
        None => Behind::Nothing,
        Some(kid) => {
            if kid.begins_later(at) {
                Behind::Later
            } else {
                Behind::Unknown
            }
        }
    }
}

impl Chunk {
    fn kids(&self) -> &[Kid]
        ensures { parts_of result.now ≡ self.now }
    {
        self.kids.as_slice()
    }

    fn is_empty(&self) -> bool
        ensures { IsTrue result → self.now ≡ nothing }
    {
        self.kids.is_empty()
    }

    fn ends_later(&self, at: TaskPlace) -> bool
        ensures { result ≡ false → spec.ends_later at false self.now ≡ false }
    {
        end_later(self.kids.as_slice(), at)
    }
}

// How many chunks stand in front of the first that ends with an entry of a later task.
fn chunks_before(chunks: &[Arc<Chunk>], at: TaskPlace) -> usize
    ensures low { result ≤ length chunks.now }
    ensures ends { spec.ends_later at false (all_of (take result chunks.now)) ≡ false }
{
    for i in 0..chunks.len() {
        if chunks[i].ends_later(at) {
            return i;
        }
    }
    chunks.len()
}

impl Filled {
    // Adds kids, each shared.
    fn add_kids(&mut self, kids: &[Kid]) -> Result<(), Memory>
        ensures { OnOk result (self.new ≡ then_parts self.old (parts_of kids.now)) }
    {
        for kid in kids {
            self.add(kid.shared()?)?;
        }
        Ok(())
    }

    // Adds a chunk, which is shared where it can stand by itself.
    fn add_chunk(&mut self, chunk: &Arc<Chunk>) -> Result<(), Memory>
        ensures { OnOk result (self.new ≡ then_parts self.old chunk.now.value) }
    {
        self.end_chunk()?;
        self.add_behind(chunk)
    }

    // What is added next begins a chunk.
    fn end_chunk(&mut self) -> Result<(), Memory>
        ensures { self.new ≡ self.old }
    {
        if self.last.is_empty() {
            return Ok(());
        }
        self.seal()
    }

    fn add_behind(&mut self, chunk: &Arc<Chunk>) -> Result<(), Memory>
        ensures { OnOk result (self.new ≡ then_parts self.old chunk.now.value) }
    {
        if !self.last.is_empty() {
            return self.add_kids(chunk.kids.as_slice());
        }
        let sum = self.sum.and(chunk.sum())?;
        self.full.push(Arc::try_clone(chunk)?)?;
        self.sum = sum;
        Ok(())
    }

    // Adds kids, each shared, and one more among them, in front of the first that ends with an entry of a later task.
    fn add_among(&mut self, kids: &[Kid], at: TaskPlace, kid: Kid) -> Result<Behind, Memory>
        ensures { IfOk result (IsAmong at self.old self.new kids.now kid) }
    {
        let place = position(kids, at);
        self.add_kids(&kids[..place])?;
        self.add(kid)?;
        self.end_if_long(kids.len())?;
        self.add_kids(&kids[place..])?;
        Ok(what_follows(kids, place, at))
    }

    // What is added next begins a chunk, where it would else be among so many kids as a chunk has at most.
    fn end_if_long(&mut self, kids: usize) -> Result<(), Memory>
        ensures { self.new ≡ self.old }
    {
        if kids < ROOM {
            return Ok(());
        }
        self.end_chunk()
    }

    // Adds chunks, each shared where it can stand by itself.
    fn add_chunks(&mut self, chunks: &[Arc<Chunk>]) -> Result<(), Memory>
        ensures { OnOk result (self.new ≡ then_parts self.old (all_of chunks.now)) }
    {
        for chunk in chunks {
            self.add_chunk(chunk)?;
        }
        Ok(())
    }

    // The same over one kid more. None where it cannot be told in front of which.
    fn with_kid(&self, at: TaskPlace, kid: Kid) -> Result<Option<Filled>, Memory>
        ensures { IfOk result (λ found. IfSome found (IsPut at (kid_parts kid) self.now)) }
    {
        let full = self.full.as_slice();
        let count = chunks_before(full, at);
        let mut new = Filled::new(*self.full.allocator());
        new.add_chunks(&full[..count])?;
        if count == full.len() {
            return match new.add_among(self.last.kids(), at, kid)? {
                Behind::Unknown => Ok(None),
                Behind::Later | Behind::Nothing => Ok(Some(new)),
            };
        }
        match new.add_among(full[count].kids(), at, kid)? {
            Behind::Nothing | Behind::Unknown => return Ok(None),
            Behind::Later => (),
        }
        new.add_chunks(&full[count + 1..])?;
        new.end_chunk()?;
        new.add_kids(self.last.kids())?;
        Ok(Some(new))
    }
}

impl Below {
    // One call alone, with room for more.
    fn filled_with(&self, state: &Arc<Summed>) -> Result<Filled, Memory>
        ensures { IfOk result (λ filled. filled ≡ row_of (state.now.value ∷ [])) }
    {
        let mut filled = Filled::new(self.alloc);
        filled.add(Kid::of_shared(Shared {
            state: Arc::try_clone(state)?,
        }))?;
        Ok(filled)
    }

    fn with_kid(&self, at: TaskPlace, kid: Kid) -> Result<Option<Filled>, Memory>
        ensures { IfOk result (λ found. IfSome found (IsPut at (kid_parts kid) self.now)) }
    {
        match &self.stock {
            Stock::Nothing => Filled::new(self.alloc).with_kid(at, kid),
            Stock::One(state) => self.filled_with(state)?.with_kid(at, kid),
            Stock::Many(filled) => filled.with_kid(at, kid),
        }
    }

    // The same over one entry more. None where it cannot be told in front of which.
    fn with_entry(&self, at: TaskPlace, entry: Entry) -> Result<Option<Below>, Memory>
        ensures { IfOk result (λ found. IfSome found (IsPut at (entry_then entry nothing) self.now)) }
    {
        match self.with_kid(at, entry.into_kid(self.alloc)?)? {
            None => Ok(None),
            Some(filled) => Ok(Some(Below::of(self.alloc, filled)?)),
        }
    }
}

impl State {
    /// The same node of a DAG over one entry more, which stands for a task: the entries stand in the order of their tasks. None where
    /// it cannot be told in front of which it belongs.
    pub fn with_entry(&self, task: u32, entry: Entry) -> Result<Option<State>, Memory>
        ensures { IfOk result (λ found. IfSome found (HasPut task entry self.now)) }
    {
        let at = TaskPlace {
            depth: self.node.path.sels.len(),
            task,
        };
        match self.below.with_entry(at, entry)? {
            None => Ok(None),
            Some(below) => Ok(Some(self.over(below)?)),
        }
    }
}
