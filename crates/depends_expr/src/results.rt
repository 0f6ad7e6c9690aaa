//! What is known of a task that has ended.

/// The results of a task that a `depends` can ask for. A task is never daemoned here, so that result is not among them.
#[derive(Clone, Copy, Debug, PartialEq, Eq)]
pub struct TaskResult {
    pub succeeded: bool,
    pub failed: bool,
    pub errored: bool,
    pub skipped: bool,
    pub omitted: bool,
    /// Some item of a looped task has succeeded.
    pub any_succeeded: bool,
    /// Every item of a looped task has failed.
    pub all_failed: bool,
}
