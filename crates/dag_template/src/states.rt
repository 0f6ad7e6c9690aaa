//! How the tasks of a DAG stand, and what follows.

use base_types::List;
use tree_types::Phase;

/// How a task of a DAG stands. All but `begun`, which says that its beginning is recorded, counts only where the task is
/// made: the phase of its node, whether its call is finished, whether an item of it Succeeded, and whether each Failed.
#[derive(Clone, Copy, Debug, PartialEq, Eq)]
pub struct TaskState {
    pub made: bool,
    pub begun: bool,
    pub phase: Phase,
    pub finished: bool,
    pub any_succeeded: bool,
    pub all_failed: bool,
}

/// The states of the tasks of a DAG, in their order.
pub type TaskStates = List<TaskState>;

/// Positions of tasks from 0.
pub type Places = List<u32>;

/// What follows: the tasks that exist, those of them that are Omitted, those whose beginning may be recorded, and the phase of
/// the DAG where it is over.
#[derive(Debug, Drop)]
pub struct DagStep {
    pub exist: Places,
    pub omit: Places,
    pub begin: Places,
    pub phase: Option<Phase>,
}
