//! Why there is no tree.

ghost use Rattle.std.specs.Prelude.{◌≡◌};
ghost use Rattle.tree_state.specs.declared.refused.TreeRefused.TheVariants as refused;

use base_types as base;
use thiserror::Error;

/// Why there is no tree of a manifest.
#[derive(Clone, Copy, Debug, PartialEq, Eq, Error)]
pub enum TreeRefused {
    /// The tree would have more than 10,000 nodes.
    #[error("the tree has more than 10000 nodes")]
    TooLarge,
    #[error("out of memory")]
    Memory,
}

impl From<base::Memory> for TreeRefused {
    ghost from_gives = { λ _ e. e ≡ refused.Memory };

    fn from(_: base::Memory) -> Self {
        TreeRefused::Memory
    }
}
