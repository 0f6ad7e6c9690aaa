//! How much of what a workflow asks for a fact answers.

/// How many pods and how many locks a fact answers.
#[derive(Clone, Copy)]
pub(crate) struct Answered {
    pub(crate) pods: usize,
    pub(crate) locks: usize,
}
