//! A step from a node to one below it.

use base_types::{List, Memory, Text, TryCopy};

/// Which node below another one.
#[derive(Debug, Drop)]
pub enum Seg {
    /// The exit handler of a workflow, or the exit hook of a step or task.
    Exit,
    /// A group of parallel steps, counted from 0.
    Group(u32),
    /// A step or task, by its name.
    Call(Text),
    /// An item of a loop, counted from 0, with the text of the item that its name shows.
    Item(u32, Text),
    /// An attempt of a retried node, counted from 0.
    Attempt(u32),
}

/// The way from a node to one far below it.
pub type Segs = List<Seg>;

impl TryCopy for Seg {
    fn copy(&self) -> Result<Seg, Memory> {
        match self {
            Seg::Exit => Ok(Seg::Exit),
            Seg::Group(i) => Ok(Seg::Group(*i)),
            Seg::Call(name) => Ok(Seg::Call(name.copy()?)),
            Seg::Item(i, text) => Ok(Seg::Item(*i, text.copy()?)),
            Seg::Attempt(k) => Ok(Seg::Attempt(*k)),
        }
    }
}
