//! What is written of a run.

/// Whether the trees give way to what the run counts, and whether its history follows.
#[derive(Clone, Copy, Debug)]
pub struct Shown {
    pub summary: bool,
    pub history: bool,
}
