//! A task that begins: a call in its place.

ghost use Rattle.std.specs.Prelude.{◌≡◌, IfOk, OnOk, option_map};
ghost use Rattle.meaning.specs.Lines as lines;
ghost use Rattle.meaning.specs.Lines.{then_parts, Parts};
ghost use Rattle.tree_state.specs.Beginning.{begun};
ghost use Rattle.tree_state.specs.Inside.Begun.{lets_begin, own_lets, begins_in, begun_by};
ghost use Rattle.tree_state.specs.Inside.Kids.{state_then, kid_before};

use crate::below::Stock;
use crate::chunk::Chunk;
use crate::clue::same_sels;
use crate::filled::Filled;
use crate::state::{Kid, Line};
use crate::sum::Sum;
use crate::{Below, State};
use base_types::Memory;
use std::sync::Arc;
use tree_types::Path;

impl State {
    /// The same where the task of this path, which may begin, has begun: what it makes stands in its place. None where no task of
    /// this path may begin there. All other calls are shared, and all chunks but the one of the task and the last.
    pub fn with_begun(&self, path: &Path, call: State) -> Result<Option<State>, Memory>
        ensures { IfOk result (λ found.
            found ≡ option_map (λ parts. record self.now { parts = parts }) (begun self.now.parts path.now call)) }
    {
        match self.below.with_begun(path, call)? {
            None => Ok(None),
            Some(below) => Ok(Some(self.over(below)?)),
        }
    }
}

impl Line {
    // Whether it lets the task of this path begin.
    fn lets_begin(&self, path: &Path) -> bool
        ensures { result ≡ lets_begin self.now path.now }
    {
        match self {
            Line::MayBegin(task) => same_sels(task.sels.as_slice(), path.sels.as_slice()),
            Line::Asks(_) => false,
        }
    }
}

impl Kid {
    // Whether the kid's own line lets the task of this path begin.
    fn lets_begin(&self, path: &Path) -> bool
        ensures { result ≡ own_lets self.now.line path.now }
    {
        match &self.line {
            None => false,
            Some(line) => line.lets_begin(path),
        }
    }
}

impl Chunk {
    // Whether the task of this path may begin directly among the kids. Most chunks have no beginning, and no kid of theirs is
    // looked at.
    fn begins(&self, path: &Path) -> bool
        ensures { result ≡ begins_in self.now path.now }
    {
        if !self.sum.asks.beginnings {
            return false;
        }
        for kid in &self.kids {
            if kid.lets_begin(path) {
                return true;
            }
        }
        false
    }

    // The chunk, with the call, if it has no place yet, in that of its task where the task may begin in the chunk.
    fn or_begun(&self, path: &Path, call: &mut Option<State>) -> Result<Chunk, Memory>
        ensures { IfOk result (λ chunk. (rest : Parts) →
            option_map (then_parts chunk) (begun_by rest path.now call.new)
            ≡ begun_by (then_parts self.now rest) path.now call.old) }
    {
        let mut chunk = Chunk::with_room(self.allocator(), self.kids.len())?;
        for kid in &self.kids {
            chunk.add_or_begin(kid, path, call)?;
        }
        Ok(chunk)
    }

    // The same, where the call may have its place already.
    fn copied_or_begun(&self, path: &Path, call: &mut Option<State>) -> Result<Chunk, Memory>
        ensures { IfOk result (λ chunk. (rest : Parts) →
            option_map (then_parts chunk) (begun_by rest path.now call.new)
            ≡ begun_by (then_parts self.now rest) path.now call.old) }
    {
        if call.is_none() {
            return self.copy();
        }
        self.or_begun(path, call)
    }

    // Adds a kid, or the call in the place of its line where that lets the task begin.
    fn add_or_begin(
        &mut self,
        kid: &Kid,
        path: &Path,
        call: &mut Option<State>,
    ) -> Result<(), Memory>
        ensures { OnOk result ((rest : Parts) →
            option_map (then_parts self.new) (begun_by rest path.now call.new)
            ≡ option_map (then_parts self.old) (begun_by (kid_before kid.now rest) path.now call.old)) }
    {
        if !kid.lets_begin(path) {
            return self.add(kid.shared()?);
        }
        match call.take() {
            None => self.add(kid.shared()?),
            Some(call) => self.add_begun(kid, call),
        }
    }

    // Adds the call in the place of the kid's own line.
    fn add_begun(&mut self, kid: &Kid, call: State) -> Result<(), Memory>
        ensures { OnOk result (self.new ≡ then_parts self.old
            (lines.call call.own call.parts (state_then kid.now.state lines.nothing))) }
    {
        self.add(Kid::of(call)?)?;
        if kid.state.is_none() {
            return Ok(());
        }
        // A kid holds one call only, so the one that it had stands in a kid of its own.
        self.add(kid.without_line()?)
    }
}

// The chunk, shared where the task does not begin in it, with the call in its place where it does.
fn shared_or_begun(
    chunk: &Arc<Chunk>,
    path: &Path,
    call: &mut Option<State>,
) -> Result<Arc<Chunk>, Memory>
    ensures { IfOk result (λ new. (rest : Parts) →
        option_map (then_parts new.value) (begun_by rest path.now call.new)
        ≡ begun_by (then_parts chunk.now.value rest) path.now call.old) }
{
    if call.is_none() {
        return Ok(Arc::try_clone(chunk)?);
    }
    if !chunk.begins(path) {
        return Ok(Arc::try_clone(chunk)?);
    }
    Ok(Arc::new(chunk.allocator(), chunk.or_begun(path, call)?)?)
}

impl Filled {
    // The same where the task of this path has begun, with the call in its place; None where no such task may begin.
    fn with_begun(&self, path: &Path, call: State) -> Result<Option<Filled>, Memory>
        ensures { IfOk result (λ found. found ≡ begun self.now path.now call) }
    {
        if !self.sum.asks.beginnings {
            return Ok(None);
        }
        let alloc = *self.full.allocator();
        let mut full = Vec::with_capacity(alloc, self.full.len())?;
        let mut sum = Sum::nothing();
        let mut call = Some(call);
        for chunk in &self.full {
            let chunk = shared_or_begun(chunk, path, &mut call)?;
            sum = sum.and(chunk.sum())?;
            full.push(chunk)?;
        }
        let last = self.last.copied_or_begun(path, &mut call)?;
        // A call without a place: no such task may begin.
        if call.is_some() {
            return Ok(None);
        }
        let sum = sum.and(last.sum())?;
        Ok(Some(Filled { full, last, sum }))
    }
}

impl Below {
    /// The same where the task of this path has begun, with the call in its place; None where no such task may begin.
    fn with_begun(&self, path: &Path, call: State) -> Result<Option<Below>, Memory>
        ensures { IfOk result (λ found. found ≡ begun self.now path.now call) }
    {
        match &self.stock {
            Stock::Nothing | Stock::One(_) => Ok(None),
            Stock::Many(filled) => self.or_none(filled.with_begun(path, call)?),
        }
    }

    // The same, put behind a box, where there is anything.
    fn or_none(&self, filled: Option<Filled>) -> Result<Option<Below>, Memory>
        ensures { IfOk result (λ below. below ≡ filled) }
    {
        match filled {
            None => Ok(None),
            Some(filled) => Ok(Some(Below::of(self.alloc, filled)?)),
        }
    }
}
