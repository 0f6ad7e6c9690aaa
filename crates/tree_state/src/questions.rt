//! Questions by which wants and nodes are found.

ghost use Rattle.std.specs.Prelude.{◌≡◌, Bool};
ghost use Rattle.tree_types.specs.declared.want.Want.{Want};
ghost use Rattle.tree_types.specs.declared.node.Node.{Node};

use tree_types::{Node, Want};

/// A question to a want.
pub trait WantTest {
    /// Which wants pass.
    ghost accepts: { Self → Want → Bool };

    fn accepts(&self, want: &Want) -> bool
        ensures { result ≡ accepts self.now want.now };
}

/// A question to a node.
pub trait NodeTest {
    /// Which nodes pass.
    ghost accepts: { Self → Node → Bool };

    fn accepts(&self, node: &Node) -> bool
        ensures { result ≡ accepts self.now node.now };
}
