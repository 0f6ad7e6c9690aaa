//! What words ask for.

/// What is to be done.
#[derive(Clone, Copy, Debug, PartialEq, Eq)]
pub enum Mode {
    /// Reconcile the workflows of the document.
    Run,
    /// Follow the schedule of the document.
    Simulate,
    /// Say whether the document is valid.
    Check,
    /// Make a document.
    Generate,
}

/// What words ask for.
#[derive(Clone, Copy, Debug, PartialEq, Eq)]
pub struct Order {
    pub mode: Mode,
    /// The workers of a run, from 1 to 64.
    pub workers: u32,
    /// Whether the history is printed.
    pub history: bool,
    /// Whether a summary is printed in place of the trees.
    pub summary: bool,
    /// What a generated document is drawn from.
    pub seed: u64,
    /// The workflows that are generated, from 0 to 500.
    pub size: u32,
    /// Whether the generated document itself is printed.
    pub bundle: bool,
}
