//! What a run counts.

/// What a run counts: its workflows, those of each phase that a workflow can have, the stored nodes and the pods.
#[derive(Clone, Copy, Debug, PartialEq, Eq)]
pub struct Counts {
    pub workflows: u64,
    pub pending: u64,
    pub running: u64,
    pub succeeded: u64,
    pub failed: u64,
    pub error: u64,
    pub nodes: u64,
    pub pods: u64,
}
