//! The lines of a tree.

use base_types::Text;
use tree_types::{Node, Path, Sels, Want};

/// Where a node stands: its path, its name, and how many nodes stand from the root down to it.
#[derive(Drop)]
pub struct Place {
    pub sels: Sels,
    pub name: Text,
    pub depth: u32,
}

/// A line of a tree.
#[derive(Drop)]
pub enum Line {
    /// A node stands here.
    Stands(Node),
    /// The node before asks for this.
    Asks(Want),
    /// A task that is ready, and whose beginning may be recorded.
    MayBegin(Path),
}
