//! How many more nodes a tree may have.

ghost use Rattle.std.specs.Prelude.{◌≡◌, ◌≤◌, OnErr};
ghost use Rattle.base_types.specs.Limits.{most_nodes};
ghost use Rattle.tree_state.specs.Counting.{Takes, TakesAll};

use crate::TreeRefused;
use base_types::limits::MOST_NODES;
use std::marker::Model;

/// How many more nodes a tree may have, which contracts see as a number.
#[derive(Debug, Drop)]
pub struct Room {
    left: usize,
}

impl Model for Room {
    ghost use Rattle.std.specs.Prelude.{ℕ, ◌≤◌};
    ghost use Rattle.base_types.specs.Limits.{most_nodes};

    ghost Value = { ℕ };

    ghost view = { λ a. a.left };

    ghost invariant = { λ a. a.left ≤ most_nodes };
}

impl Room {
    /// The room of a tree without nodes.
    pub fn new() -> Room
        ensures { result ≡ most_nodes }
    {
        Room { left: MOST_NODES }
    }

    /// Takes the room of one node.
    pub fn take(&mut self) -> Result<(), TreeRefused>
        ensures takes { Takes self.old self.new result }
        ensures left { OnErr result (self.new ≡ self.old) }
        ensures few { self.new ≤ most_nodes }
    {
        if self.left == 0 {
            return Err(TreeRefused::TooLarge);
        }
        self.left -= 1;
        Ok(())
    }

    /// Takes the room of so many nodes.
    pub fn take_all(&mut self, count: usize) -> Result<(), TreeRefused>
        ensures takes { TakesAll count self.old self.new result }
        ensures left { OnErr result (self.new ≡ self.old) }
        ensures few { self.new ≤ most_nodes }
    {
        if self.left < count {
            return Err(TreeRefused::TooLarge);
        }
        self.left -= count;
        Ok(())
    }
}
