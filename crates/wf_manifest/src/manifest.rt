//! A manifest as a whole.

use crate::{Arguments, Templates};
use base_types::Text;
use tree_types::LockId;

/// A workflow's manifest. The entrypoint and the exit handler are names of templates, both called with `arguments`.
#[derive(Debug, Drop)]
pub struct Manifest {
    pub name: Text,
    pub namespace: Text,
    /// The creation in Unix seconds.
    pub created: i64,
    pub priority: i32,
    pub entrypoint: Text,
    pub on_exit: Option<Text>,
    pub arguments: Arguments,
    pub lock: Option<LockId>,
    pub templates: Templates,
}
