//! The lines of what a call makes, told kind by kind.

ghost use Rattle.std.specs.Prelude.{◌≡◌, [], ◌∷◌, OnOk};
ghost use Rattle.meaning.specs.Lines.{lines_over, lines_below, nothing};
ghost use Rattle.tree_state.specs.Telling.{told_with, no_lines};
ghost use Rattle.tree_state.specs.Inside.Kids.{own_line, line_then};

use crate::state::Line;
use base_types::{List, Memory, TryCopy};
use std::alloc::Global;
use std::sync::Arc;
use tree_types::{Node, Nodes, Path, Wants};

/// Nodes, what they ask for, and the tasks that may begin, each in tree order.
#[derive(Debug, Drop)]
pub struct Told {
    pub nodes: Nodes,
    pub wants: Wants,
    pub beginnings: List<Path>,
}

impl Told {
    /// Nothing.
    pub fn new(alloc: Global) -> Told
        ensures { result ≡ no_lines }
    {
        Told {
            nodes: Nodes::new(alloc),
            wants: Wants::new(alloc),
            beginnings: List::new(alloc),
        }
    }

    /// Adds a node and what it asks for.
    pub fn add_node(&mut self, node: &Node, wants: &Wants) -> Result<(), Memory>
        ensures { OnOk result (self.new ≡ told_with self.old (lines_over node.now wants.now [])) }
    {
        self.nodes.push(node.copy()?)?;
        for want in wants.as_slice() {
            self.wants.push(want.copy()?)?;
        }
        Ok(())
    }

    fn add_own(&mut self, line: &Line) -> Result<(), Memory>
        ensures { OnOk result
            (self.new ≡ told_with self.old (lines_below (own_line line.now nothing))) }
    {
        match line {
            Line::MayBegin(path) => self.beginnings.push(path.copy()?),
            Line::Asks(want) => self.wants.push(want.copy()?),
        }
    }

    // Adds a line that is no call's, if there is one.
    pub(crate) fn add_line(&mut self, line: &Option<Arc<Line>>) -> Result<(), Memory>
        ensures { OnOk result
            (self.new ≡ told_with self.old (lines_below (line_then line.now nothing))) }
    {
        match line {
            None => Ok(()),
            Some(line) => self.add_own(line),
        }
    }
}
