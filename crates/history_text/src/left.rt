//! What an outcome says beside its phase.

use base_types::Text;
use tree_types::Params;

/// An outcome without its phase.
#[derive(Drop)]
pub(crate) struct Left {
    pub(crate) result: Option<Text>,
    pub(crate) params: Params,
    pub(crate) transient: bool,
    pub(crate) begin: u64,
    pub(crate) finish: u64,
}
